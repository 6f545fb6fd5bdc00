//! A line is played: its call is made on the book, and what it gave is said.
ghost use Rattle.std.specs.Prelude.{◌≡◌, IfOk, OnErr};
ghost use Rattle.book.specs.View.{page_of};
ghost use Rattle.lines.specs.Calls.{request_of};
ghost use Rattle.lines.specs.Reading.{line_of};
ghost use Rattle.script.specs.Playing.{Writes, Performs, Plays, Leaves};

use crate::answers::Answer;
use crate::saying::say;
use book::book::Book;
use lines::calls::{Call, LineError};
use lines::reading::read_line;
use lines::words::echo;
use promises::refusals::Refusal;
use std::alloc::{AllocError, Global};

/// Writes the rule into a new buffer with so much room, and keeps its code.
fn write_out(
    alloc: Global,
    book: &Book,
    rule: u16,
    room: u16,
) -> Result<Result<Answer, Refusal>, AllocError>
    ensures gives { IfOk result (Writes (page_of book.now) rule room) }
{
    let mut buffer = vec![in alloc; 0u8; usize::from(room)]?;
    let written = book.write_out(rule, &mut buffer);
    Ok(written.map(|length| {
        buffer.truncate(length);
        Answer::Code(buffer)
    }))
}

/// Makes the call on the book. A refusal is what the book gave, and is no failure of the call.
pub fn perform(
    alloc: Global,
    book: &mut Book,
    call: &Call,
) -> Result<Result<Answer, Refusal>, AllocError>
    ensures gives { IfOk result (λ a. Performs (page_of book.old) (request_of call.now) a (page_of book.new)) }
    ensures kept { OnErr result (page_of book.new ≡ page_of book.old) }
{
    match call {
        Call::Declare { size } => Ok(book.declare(*size).map(Answer::Setting)),
        Call::Lay { code } => Ok(book.lay(code.as_slice()).map(Answer::Rule)),
        Call::Write { rule, room } => write_out(alloc, book, *rule, *room),
        Call::Judge { row } => Ok(book.judge(row.as_slice()).map(Answer::Verdict)),
    }
}

/// Plays one line of a script on the book, and gives what is shown of it: nothing where it is passed over.
pub fn play_line(alloc: Global, book: &mut Book, line: &str) -> Result<Option<String>, LineError>
    ensures plays { Plays (page_of book.old) line.now (line_of line.now) result (page_of book.new) }
    ensures leaves { Leaves (page_of book.old) (line_of line.now) (page_of book.new) }
{
    let Some(call) = read_line(alloc, line)? else {
        return Ok(None);
    };
    let words = echo(alloc, line)?;
    let answer = say(alloc, &perform(alloc, book, &call)?)?;
    Ok(Some(format!(in alloc; "> {words}\n  {answer}")?))
}
