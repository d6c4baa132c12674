// Walks through whole trees, and the longest path.
use forms::{Refusal, Table};
use protocol::Standing;
use register::Register;
use std::test::Fail;
use walk::{Phase, Walk};

// Truth, falsity, atom 0 and its absence, A(0 U 2), E(1 R 3), AX 4, EX 5.
const FORMS: [(u8, u8, u8); 8] = [
    (0, 0, 0),
    (1, 0, 0),
    (2, 0, 0),
    (3, 0, 0),
    (9, 0, 2),
    (10, 1, 3),
    (7, 4, 0),
    (6, 5, 0),
];

fn filled() -> Result<Table, Refusal> {
    let mut table = Table::new();
    for (kind, a, b) in FORMS {
        table.add(kind, a, b)?;
    }
    Ok(table)
}

// Steps that refute form 4 with form 5, each with how many goals wait after it.
const REFUTATION: [((u8, u8, u8), usize); 9] = [
    ((6, 4, 0), 1),
    ((5, 5, 7), 2),
    ((2, 1, 0), 1),
    ((5, 4, 6), 2),
    ((1, 2, 3), 1),
    ((7, 7, 0), 1),
    ((5, 5, 7), 2),
    ((2, 1, 0), 1),
    ((8, 3, 0), 0),
];

#[test]
fn a_repeat_in_focus_closes(rt: HostRuntime) -> Result<(), Fail> {
    let table = filled()?;
    let mut walk = Walk::new();
    walk.start(48);
    for ((number, a, b), waiting) in REFUTATION {
        assert_eq!(rt; walk.node(&table, number, a, b), Ok(waiting));
    }
    assert_eq!(rt; walk.phase(), Phase::Closed { root: 48 });
    Ok(())
}

#[test]
fn a_refutation_is_entered(rt: HostRuntime) -> Result<(), Fail> {
    let mut register = Register::new();
    for (kind, a, b) in FORMS {
        register.form(kind, a, b)?;
    }
    assert_eq!(rt; register.open(48), Ok(1));
    for ((number, a, b), waiting) in REFUTATION {
        assert_eq!(rt; register.node(number, a, b), Ok(waiting));
    }
    assert_eq!(rt; register.enter(), Ok(0));
    assert_eq!(rt; register.stands(48), Some(Standing::Impossible));
    Ok(())
}

#[test]
fn a_repeat_without_focus_is_refused(rt: HostRuntime) -> Result<(), Fail> {
    let table = filled()?;
    let mut walk = Walk::new();
    walk.start(48);
    for ((number, a, b), _) in REFUTATION.into_iter().skip(1).take(7) {
        assert!(rt; walk.node(&table, number, a, b).is_ok());
    }
    assert_eq!(rt; walk.node(&table, 8, 3, 0), Err(Refusal::DoesNotClose));
    Ok(())
}

#[test]
fn a_path_has_at_most_256_goals(rt: HostRuntime) -> Result<(), Fail> {
    let table = filled()?;
    let mut walk = Walk::new();
    walk.start(16);
    for _ in 1..256 {
        assert_eq!(rt; walk.node(&table, 6, 4, 0), Ok(1));
    }
    assert_eq!(rt; walk.node(&table, 6, 4, 0), Err(Refusal::PathTooLong));
    Ok(())
}
