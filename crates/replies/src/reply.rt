//! What is printed at the end of a run.

ghost use Rattle.std.specs.Prelude.{◌≡◌, ◌++◌, ◌∷◌, IfOk};
ghost use Rattle.std.specs.Fmt.{decimal};
ghost use Rattle.answers.specs.Answers as answers;
ghost use Rattle.answers.specs.Texts.{usage_text, read_fault_text, refused_text as refused_text_of};
ghost use Rattle.report_text.specs.Refused.{refusal_view};

use super::Status;
use report_text::{Refusal, refused_text};
use std::alloc::{AllocError, Global};
use std::marker::Model;

/// What is to be printed: a status and its text. Contracts see the answer that they are.
#[derive(Drop)]
pub struct Reply {
    pub status: Status,
    pub text: Vec<u8>,
}

impl Model for Reply {
    ghost use Rattle.answers.specs.Answers.{Answer};
    ghost use Rattle.replies.specs.Statuses.{status_of};

    ghost Value = { Answer };

    ghost view = { λ r. record { status = status_of r.status; text = r.text.items } };
}

/// Adds a space and a word.
pub fn push_word(text: &mut Vec<u8>, word: &[u8]) -> Result<(), AllocError>
    ensures { IfOk result (λ _. text.new.items ≡ text.old.items ++ 32 ∷ word.now) }
{
    text.push(b' ')?;
    text.extend_from_slice(word)?;
    Ok(())
}

/// Adds a space and a number.
pub fn push_number(text: &mut Vec<u8>, number: u64) -> Result<(), AllocError>
    ensures { IfOk result (λ _. text.new.items ≡ text.old.items ++ 32 ∷ decimal number) }
{
    let alloc = *text.allocator();
    let digits = number.to_string(alloc)?;
    push_word(text, digits.as_bytes())
}

/// `usage K`: the words have no reading, and word K is the first that can't stand where it stands.
pub fn usage(alloc: Global, word: u64) -> Result<Reply, AllocError>
    ensures { IfOk result (λ r. r ≡ record { status = answers.Usage; text = usage_text word }) }
{
    let mut text = Vec::from_slice(alloc, b"usage")?;
    push_number(&mut text, word)?;
    text.push(b'\n')?;
    Ok(Reply {
        status: Status::Usage,
        text,
    })
}

/// `read fault NAME`, with a line feed.
pub fn unread_text(alloc: Global, name: &str) -> Result<Vec<u8>, AllocError>
    ensures { IfOk result (λ text. text.items ≡ read_fault_text name.now) }
{
    let mut text = Vec::from_slice(alloc, b"read fault")?;
    push_word(&mut text, name.as_bytes())?;
    text.push(b'\n')?;
    Ok(text)
}

/// `read fault NAME`: this file couldn't be read.
pub fn unread(alloc: Global, name: &str) -> Result<Reply, AllocError>
    ensures { IfOk result (λ r. r ≡ record { status = answers.ReadFault; text = read_fault_text name.now }) }
{
    Ok(Reply {
        status: Status::ReadFault,
        text: unread_text(alloc, name)?,
    })
}

/// `refused NUMBER NAME ARGS`: the input is refused by this check.
pub fn refused(alloc: Global, refusal: Refusal<'_>) -> Result<Reply, AllocError>
    ensures { IfOk result (λ r. r ≡ record { status = answers.Refused; text = refused_text_of (refusal_view refusal.entry) }) }
{
    Ok(Reply {
        status: Status::Refused,
        text: refused_text(alloc, refusal)?,
    })
}
