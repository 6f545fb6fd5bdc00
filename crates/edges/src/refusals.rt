//! Every refusal, played as a script: each line with its answer.
use book::book::Book;
use script::playing::play_line;
use std::test::Fail;

// Where two faults meet, the case shows which comes first.
#[test]
fn each_line_gets_its_answer(rt: HostRuntime) -> Result<(), Fail> {
    let cases = [
        (
            "declare 0",
            "refused 1: a setting needs at least one choice",
        ),
        ("judge", "yes"),
        ("declare 1", "setting 0"),
        ("declare 65535", "setting 1"),
        ("lay", "refused 4 at 0: the code is empty"),
        ("lay 0a", "refused 5 at 0: unknown command"),
        ("lay 01 00", "refused 5 at 1: unknown command"),
        ("lay 03 00 00", "refused 6 at 0: the command is cut short"),
        (
            "lay 01 04 07 00 01 00",
            "refused 6 at 1: the command is cut short",
        ),
        (
            "lay 03 02 ff ff",
            "refused 7 at 0: the setting is not declared",
        ),
        (
            "lay 03 00 00 01",
            "refused 8 at 0: the setting has no such choice, or the range runs backwards",
        ),
        (
            "lay 04 01 00 02 00 01",
            "refused 8 at 0: the setting has no such choice, or the range runs backwards",
        ),
        (
            "lay 04 01 00 00 ff ff",
            "refused 8 at 0: the setting has no such choice, or the range runs backwards",
        ),
        (
            "lay 05",
            "refused 9 at 0: the command takes more formulas than there are",
        ),
        (
            "lay 01 06 00",
            "refused 9 at 1: the command takes more formulas than there are",
        ),
        (
            "lay 01 01",
            "refused 10 at 2: more than one formula is left at the end",
        ),
        ("lay 04 01 00 02 ff fe 03 01 00 02 08", "rule 0"),
        ("lay 02 05", "rule 1"),
        ("write 2 0", "refused 20: there is no such rule"),
        ("write 0 10", "refused 21: the buffer is too short"),
        ("write 0 11", "code 04 01 00 02 ff fe 03 01 00 02 08"),
        ("write 1", "code 02 05"),
        (
            "judge 1",
            "refused 17: the row is shorter than the settings",
        ),
        (
            "judge 1 65535",
            "refused 22 at 0: the setting has no such choice",
        ),
        (
            "judge 0 65535",
            "refused 22 at 1: the setting has no such choice",
        ),
        ("judge 0 65534", "no"),
        ("judge 0 2", "yes"),
        ("judge 0 1 9 9", "yes"),
    ];
    let mut book = Book::new();
    for (line, answer) in cases {
        let expected = format!(in rt.alloc(); "> {line}\n  {answer}")?;
        let shown = play_line(rt.alloc(), &mut book, line)?;
        assert_eq!(rt; shown.as_deref(), Some(expected.as_str()));
    }
    Ok(())
}
