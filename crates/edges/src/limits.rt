//! The last place of each table is filled, and the next is refused.
use book::book::Book;
use plfd::faults::{CodeFault, CodeRefusal};
use promises::refusals::Refusal;

#[test]
fn a_book_has_128_settings(rt: HostRuntime) {
    let mut book = Book::new();
    for number in 0..128 {
        assert_eq!(rt; book.declare(1), Ok(number));
    }
    assert_eq!(rt; book.declare(0), Err(Refusal::SettingsFull));
    assert_eq!(rt; book.lay(&[0x03, 127, 0, 0]), Ok(0));
}

#[test]
fn a_book_has_256_rules(rt: HostRuntime) {
    let mut book = Book::new();
    for number in 0..256 {
        assert_eq!(rt; book.lay(&[0x01]), Ok(number));
    }
    assert_eq!(rt; book.lay(&[]), Err(Refusal::RulesFull));
    assert_eq!(rt; book.judge(&[]), Ok(true));
}

fn full_at(offset: usize) -> Refusal {
    Refusal::RuleCode(CodeRefusal {
        fault: CodeFault::NodesFull,
        offset,
    })
}

// A constant, denied again and again.
#[test]
fn a_book_has_1024_nodes(rt: HostRuntime) {
    let mut book = Book::new();
    let mut code = [0x05; 1025];
    code[0] = 0x02;
    assert_eq!(rt; book.lay(&code), Err(full_at(1024)));
    assert_eq!(rt; book.lay(&code[0..1023]), Ok(0));
    assert_eq!(rt; book.lay(&[0x01]), Ok(1));
    assert_eq!(rt; book.lay(&[0x01]), Err(full_at(0)));
    assert_eq!(rt; book.judge(&[]), Ok(false));
}
