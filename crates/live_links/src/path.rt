//! Paths of links, added whole and taken back.

ghost use Rattle.std.specs.Prelude.{◌≡◌, ◌≤◌, length, OnErr, OnOk};
ghost use Rattle.live_links.specs.Live.{AreAddable, with_path, without_links};

use crate::LinkStack;
use link_order::Link;
use std::alloc::AllocError;

impl LinkStack {
    /// Adds the links of a path one after the other. Where memory runs out, all stays.
    pub fn add_path(&mut self, path: &[Link]) -> Result<(), AllocError>
        requires { AreAddable self.old path.now }
        ensures ok { OnOk result (self.new ≡ with_path self.old path.now) }
        ensures err { OnErr result (self.new ≡ self.old) }
    {
        for (count, link) in path.iter().enumerate() {
            match self.add(*link) {
                Ok(()) => {}
                Err(error) => {
                    self.drop_links(count);
                    return Err(error);
                }
            }
        }
        Ok(())
    }

    /// Takes the links back that were added last, so many of them; takes no memory.
    pub fn drop_links(&mut self, count: usize)
        requires { count ≤ length self.old.links }
        ensures { self.new ≡ without_links count self.old }
    {
        for _done in 0..count {
            self.drop_last();
        }
    }
}
