//! A line of each kind, and answers as they are said.
use lines::calls::{Call, LineError};
use lines::reading::read_line;
use lines::words::echo;
use promises::refusals::Refusal;
use script::answers::Answer;
use script::saying::say;
use std::alloc::{AllocError, Global};
use std::test::Fail;

fn in_words(alloc: Global, read: Result<Option<Call>, LineError>) -> Result<String, AllocError> {
    match read {
        Ok(None) => String::from_str(alloc, "Blank"),
        Ok(Some(call)) => format!(in alloc; "Call({call:?})"),
        Err(error) => format!(in alloc; "{error:?}"),
    }
}

#[test]
fn lines_are_read(rt: HostRuntime) -> Result<(), Fail> {
    let cases = [
        ("", "Blank"),
        ("  # a remark", "Blank"),
        (" declare  007 ", "Call(Declare { size: 7 })"),
        ("lay", "Call(Lay { code: [] })"),
        ("lay 03 fF", "Call(Lay { code: [3, 255] })"),
        ("write 2", "Call(Write { rule: 2, room: 6144 })"),
        ("write 2 8", "Call(Write { rule: 2, room: 8 })"),
        ("judge 1 65535", "Call(Judge { row: [1, 65535] })"),
        ("erklären 3", "NotACall(Call)"),
        ("declare 65536", "NotACall(Declare)"),
        ("lay 3", "NotACall(Lay)"),
        ("write +1", "NotACall(Write)"),
        ("judge one", "NotACall(Judge)"),
    ];
    for (text, read) in cases {
        let line = in_words(rt.alloc(), read_line(rt.alloc(), text))?;
        assert_eq!(rt; line.as_str(), read, "{}", text);
    }
    Ok(())
}

#[test]
fn words_are_echoed(rt: HostRuntime) -> Result<(), Fail> {
    assert_eq!(rt; echo(rt.alloc(), "  lay 03   é ")?.as_str(), "lay 03 é");
    Ok(())
}

#[test]
fn answers_are_said(rt: HostRuntime) -> Result<(), Fail> {
    let code = [3, 0, 0, 171].to_vec(rt.alloc())?;
    assert_eq!(rt;
        say(rt.alloc(), &Ok(Answer::Code(code)))?.as_str(),
        "code 03 00 00 ab"
    );
    let cases = [
        (Ok(Answer::Setting(0)), "setting 0"),
        (Ok(Answer::Verdict(true)), "yes"),
        (
            Err(Refusal::SizeZero),
            "refused 1: a setting needs at least one choice",
        ),
        (
            Err(Refusal::NotAChoice(4)),
            "refused 22 at 4: the setting has no such choice",
        ),
    ];
    for (answer, text) in cases {
        assert_eq!(rt; say(rt.alloc(), &answer)?.as_str(), text);
    }
    Ok(())
}
