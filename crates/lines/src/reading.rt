//! A line is read into the call that it makes.
ghost use Rattle.std.specs.Prelude.{◌≡◌};
ghost use Rattle.std.specs.Option.{option_map};
ghost use Rattle.lines.specs.Calls.{request_of, CallReadAs, ReadAs};
ghost use Rattle.lines.specs.Reading.{declare_of, write_of, call_of, line_of};
ghost use Rattle.lines.specs.Words.{texts};

use crate::calls::{Call, Expected, LineError};
use crate::operands::{Operand, read_each};
use crate::words::split_words;
use std::alloc::Global;

/// Room for the longest code.
const DEFAULT_ROOM: u16 = 6144;

fn read_declare(operands: &[&str]) -> Option<Call>
    ensures call { option_map request_of result ≡ declare_of (texts operands.now) }
{
    let [size] = operands else {
        return None;
    };
    let size = u16::read(size)?;
    Some(Call::Declare { size })
}

fn read_write(operands: &[&str]) -> Option<Call>
    ensures call { option_map request_of result ≡ write_of (texts operands.now) }
{
    let (rule, room) = match operands {
        [rule] => (u16::read(rule)?, DEFAULT_ROOM),
        [rule, room] => (u16::read(rule)?, u16::read(room)?),
        _ => return None,
    };
    Some(Call::Write { rule, room })
}

fn read_call(alloc: Global, name: &str, operands: &[&str]) -> Result<Call, LineError>
    ensures reads { CallReadAs (call_of name.now (texts operands.now)) result }
{
    let call = match name {
        "declare" => read_declare(operands).ok_or(Expected::Declare)?,
        "lay" => Call::Lay {
            code: read_each(alloc, operands, Expected::Lay)?,
        },
        "write" => read_write(operands).ok_or(Expected::Write)?,
        "judge" => Call::Judge {
            row: read_each(alloc, operands, Expected::Judge)?,
        },
        _ => return Err(LineError::NotACall(Expected::Call)),
    };
    Ok(call)
}

/// The call that a line makes, or none where the line is blank or a remark.
pub fn read_line(alloc: Global, line: &str) -> Result<Option<Call>, LineError>
    ensures reads { ReadAs (line_of line.now) result }
{
    let words = split_words(alloc, line)?;
    let Some((name, operands)) = words.as_slice().split_first() else {
        return Ok(None);
    };
    if name.starts_with('#') {
        return Ok(None);
    }
    read_call(alloc, name, operands).map(Some)
}
