//! review [FILE]: plays a script of calls on one book from new, or the built-in page where no file is named.
#![tactic(auto)]

ghost use Rattle.std.specs.Prelude.{Ok, Option, OnOk, String};
ghost use Rattle.std.specs.declared.alloc.Global.{Global};
ghost use Rattle.book.specs.View.{page_of};
ghost use Rattle.script.specs.Playing.{Plays, Leaves};
ghost use Rattle.lines.specs.Reading.{line_of};

mod failure;
mod page;

use book::book::Book;
use failure::Failure;
use lines::calls::LineError;
use page::PAGE;
use script::playing::play_line;
use std::process::ExitCode;
use std::{env, fs, io};

/// Plays a line and prints what it gave; a line that is no call ends the script.
fn play(rt: &HostRuntime, book: &mut Book, number: usize, line: &str) -> Result<(), Failure>
    ensures plays { OnOk result ((shown : Option (String Global)) × Plays (page_of book.old) line.now (line_of line.now) (Ok shown) (page_of book.new)) }
    ensures leaves { Leaves (page_of book.old) (line_of line.now) (page_of book.new) }
{
    match play_line(rt.alloc(), book, line) {
        Ok(None) => Ok(()),
        Ok(Some(text)) => {
            println!(rt; "{text}")?;
            Ok(())
        }
        Err(LineError::NotACall(expected)) => Err(Failure::NoCall { number, expected }),
        Err(LineError::Memory(error)) => Err(Failure::Memory(error)),
    }
}

/// The text of the file, or a message that names it.
// A match and no `map_err`, since the copy of the path may fail too.
fn read_script(rt: &HostRuntime, path: &str) -> Result<String, Failure> {
    match fs::read_to_string(rt, path) {
        Ok(text) => Ok(text),
        Err(error) => Err(Failure::Unreadable {
            path: String::from_str(rt.alloc(), path)?,
            error,
        }),
    }
}

/// Plays the file's lines on a new book, and counts them from 1.
fn play_script(rt: &HostRuntime, path: &str) -> Result<(), Failure> {
    let text = read_script(rt, path)?;
    let mut book = Book::new();
    for (number, line) in (1..).zip(text.lines()) {
        play(rt, &mut book, number, line)?;
    }
    Ok(())
}

/// Plays the built-in page, with its notes.
fn play_page(rt: &HostRuntime) -> Result<(), Failure> {
    let mut book = Book::new();
    for (index, step) in PAGE.iter().enumerate() {
        println!(rt; "{}", step.note)?;
        if let Some(line) = step.line {
            play(rt, &mut book, index, line)?;
        }
        if let Some(meaning) = step.meaning {
            println!(rt; "  {meaning}")?;
        }
        println!(rt)?;
    }
    Ok(())
}

fn run(rt: &HostRuntime) -> Result<(), Failure> {
    let mut args = env::args(rt)?;
    let _program = args.next();
    match (args.next(), args.next()) {
        (None, _) => play_page(rt),
        (Some(path), None) => play_script(rt, path.as_str()),
        (Some(_), Some(_)) => Err(Failure::Usage),
    }
}

/// What stopped the script is said once, on standard error, and ends the program with status 1.
fn main(rt: HostRuntime) -> io::Result<ExitCode> {
    match run(&rt) {
        Ok(()) => Ok(ExitCode::SUCCESS),
        Err(failure) => {
            eprintln!(rt; "review: {failure}")?;
            Ok(ExitCode::FAILURE)
        }
    }
}

#[cfg(test)]
mod tests {
    use super::*;
    use std::test::Fail;

    fn message(rt: &HostRuntime, played: Result<(), Failure>) -> Result<String, Fail> {
        match played {
            Ok(()) => Err(Fail::new("the script was played to its end")),
            Err(error) => Ok(error.to_string(rt.alloc())?),
        }
    }

    #[test]
    fn scripts_are_played_until_a_line_is_no_call(rt: HostRuntime) -> Result<(), Fail> {
        fs::write(&rt, "whole.script", "# a remark\n\n declare  2\nlay 05\n")?;
        play_script(&rt, "whole.script")?;
        fs::write(
            &rt,
            "broken.script",
            "declare 2\n\ndeclare 70000\ndeclare 2\n",
        )?;
        let stopped = message(&rt, play_script(&rt, "broken.script"))?;
        assert_eq!(rt;
            stopped.as_str(),
            "line 3: expected declare SIZE, a number up to 65535"
        );
        let missing = message(&rt, play_script(&rt, "no.script"))?;
        assert!(rt; missing.starts_with("cannot read no.script: "));
        Ok(())
    }
}
