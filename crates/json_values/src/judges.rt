//! How an element of a list stands behind those before it.

ghost use Rattle.std.specs.Prelude.{◌≡◌, ◌∷◌, ◌++◌, [], List, IfOk, OnOk};
ghost use Rattle.json_forms.specs.Lists.{Verdict as VerdictSpec, Fits, any_form};
ghost use Rattle.json_values.specs.Elements.{verdict_of};

use rr_ids::Limit;
use std::alloc::AllocError;

/// How an element stands behind those before it.
#[derive(Clone, Copy, Debug)]
pub enum Verdict {
    /// It keeps each rule, and is the next element of the list.
    Fits,
    /// It breaks a rule.
    Misfits,
    /// With it a limit is passed.
    Exceeds(Limit),
}

/// What judges the elements of a list, and keeps what it has to know of them.
pub trait Judge<T> {
    /// The verdict on an element behind others.
    ghost verdict: { Self → List T → T → VerdictSpec };

    /// What it knows is that of these elements.
    ghost Knows: { Self → List T → Type 0 };

    /// The verdict on an element behind others, which is known from then on if it fits.
    fn judge(&mut self, earlier: &[T], element: &T) -> Result<Verdict, AllocError>
        requires { Knows self.old earlier.now }
        ensures verdict { IfOk result (λ it. verdict_of it ≡ verdict self.old earlier.now element.now) }
        ensures knows { IfOk result (λ it. verdict_of it ≡ Fits → Knows self.new (earlier.now ++ element.now ∷ [])) }
        ensures same { OnOk result (verdict self.new ≡ verdict self.old) };
}

/// Takes each element.
#[derive(Clone, Copy, Debug)]
pub struct AnyForm;

impl<T> Judge<T> for AnyForm {
    ghost verdict = { λ _. any_form };

    ghost Knows = { λ _ _. Unit {0} };

    fn judge(&mut self, _earlier: &[T], _element: &T) -> Result<Verdict, AllocError> {
        Ok(Verdict::Fits)
    }
}
