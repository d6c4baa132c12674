// The service and its lines, where there is memory for them.
use forms::Refusal;
use lines::{Command, Reply, next_line, put_reply};
use service::Service;
use std::test::Fail;

// A file of one modes body: one row with atom 0, which leads to itself.
const MODES: [u8; 29] = [
    1, 2, 23, 0, 0, 0, 1, 0, 1, 0, 0, 0, 1, 0, 0, 0, 0, 0, 0, 0, 0, 0, 0, 0, 0, 0, 0, 0, 0,
];

// The numbers under which refusals are told, of those that the other tests meet.
#[test]
fn refusals_have_their_numbers(rt: HostRuntime) {
    for (refusal, number) in [
        (Refusal::DoesNotClose, 9),
        (Refusal::RowCount, 10),
        (Refusal::RowDegree, 11),
        (Refusal::RowOffset, 12),
        (Refusal::FileShape, 14),
        (Refusal::PartKind, 15),
        (Refusal::PartLengths, 16),
        (Refusal::BodyLength, 17),
        (Refusal::ProductSize, 18),
        (Refusal::TimerShape, 19),
        (Refusal::PathTooLong, 27),
        (Refusal::NoPartLeft, 30),
    ] {
        assert_eq!(rt; refusal.number(), number);
    }
}

#[test]
fn a_line_is_read(rt: HostRuntime) -> Result<(), Fail> {
    let mut input: &[u8] = b"Q 4\nE";
    let mut line = Vec::new(rt.alloc());
    assert!(rt; next_line(&mut input, &mut line)?);
    assert_eq!(rt; line.as_slice(), b"Q 4".as_slice());
    Ok(())
}

#[test]
fn a_reply_is_written(rt: HostRuntime) -> Result<(), Fail> {
    let mut text = String::new(rt.alloc());
    put_reply(&mut text, Reply::Numbers(4, 2))?;
    assert_eq!(rt; text.as_str(), "ok 4 2\n");
    Ok(())
}

#[test]
fn a_line_is_answered(rt: HostRuntime) -> Result<(), Fail> {
    let mut service = Service::new(rt.alloc());
    let mut text = String::new(rt.alloc());
    service.answer(b"F 2 0 0", &[], &mut text)?;
    assert_eq!(rt; text.as_str(), "ok 0\n");
    service.answer(b"R modes", &MODES, &mut text)?;
    assert_eq!(rt; text.as_str(), "ok 1\n");
    service.answer(b"H 1 0", &[], &mut text)?;
    assert_eq!(rt; text.as_str(), "ok 1 0\n");
    Ok(())
}

#[test]
fn a_command_is_replied_to(rt: HostRuntime) -> Result<(), Fail> {
    let mut service = Service::new(rt.alloc());
    let mut text = String::new(rt.alloc());
    service.reply(Ok(Command::Read(b"modes")), &MODES, &mut text)?;
    assert_eq!(rt; text.as_str(), "ok 1\n");
    service.reply(Err(Refusal::BadLine), &[], &mut text)?;
    assert_eq!(rt; text.as_str(), "no 20\n");
    Ok(())
}
