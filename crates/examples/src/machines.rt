// Machines by example. A body is written by rows of up to two offsets.
use forms::Refusal;
use machine::error::BodyError;
use machine::interface::Machine;
use machine::mask::Masked;
use machine::product::{Product, pair_count};
use machine::sheet::Sheet;
use machine::timer::Timer;
use std::alloc::{AllocError, Global};
use std::test::Fail;

// A row with atoms below 8, a count of offsets, and its first offsets.
fn row(atoms: u8, degree: u8, first: i16, second: i16) -> [u8; 21] {
    let [a, b] = first.to_le_bytes();
    let [c, d] = second.to_le_bytes();
    let mut row = [0; 21];
    row[..9].copy_from_slice(&[atoms, 0, 0, 0, degree, a, b, c, d]);
    row
}

// A body whose count says n, of `loops` rows that lead to themselves and one last row.
fn body(heap: Global, n: u16, loops: usize, last: [u8; 21]) -> Result<Vec<u8>, AllocError> {
    let mut bytes = Vec::from_slice(heap, &n.to_le_bytes())?;
    for _ in 0..loops {
        bytes.extend_from_slice(&row(0, 1, 0, 0))?;
    }
    bytes.extend_from_slice(&last)?;
    Ok(bytes)
}

// Why a body is not read, if it is not.
fn fault(heap: Global, bytes: &[u8]) -> Option<BodyError> {
    Sheet::read(heap, bytes).err()
}

fn at_row(refusal: Refusal, row: usize) -> Option<BodyError> {
    Some(BodyError::Refused(refusal.at(row)))
}

// Two rows: row 0 leads to itself and row 1, row 1 to row 0; the atoms are given.
fn two_rows(heap: Global, first: u8, second: u8) -> Result<Sheet, BodyError> {
    let mut bytes = Vec::from_slice(heap, &[2, 0])?;
    bytes.extend_from_slice(&row(first, 2, 0, 1))?;
    bytes.extend_from_slice(&row(second, 1, -1, 0))?;
    Sheet::read(heap, &bytes)
}

#[test]
fn a_sheet_is_read(rt: HostRuntime) -> Result<(), Fail> {
    let sheet = two_rows(rt.alloc(), 1, 6)?;
    assert!(rt;
        sheet.count() == 2 && sheet.atoms(0) == 1 && sheet.atoms(1) == 6 && sheet.atoms(2) == 0
    );
    assert!(rt; sheet.leads(0, 0) && sheet.leads(0, 1) && !sheet.leads(0, 2));
    assert!(rt; sheet.leads(1, 0) && !sheet.leads(1, 1) && !sheet.leads(2, 2));
    Ok(())
}

#[test]
fn the_least_and_the_largest_sheet(rt: HostRuntime) -> Result<(), Fail> {
    let one = body(rt.alloc(), 1, 0, row(0, 1, 0, 0))?;
    assert_eq!(rt; fault(rt.alloc(), &one), None);
    let most = body(rt.alloc(), 1024, 1023, row(0, 1, -1023, 0))?;
    let sheet = Sheet::read(rt.alloc(), &most)?;
    assert!(rt; sheet.count() == 1024 && sheet.leads(1023, 0) && !sheet.leads(1023, 1));
    Ok(())
}

#[test]
fn row_counts_are_1_to_1024(rt: HostRuntime) -> Result<(), Fail> {
    let none = body(rt.alloc(), 0, 0, row(0, 1, 0, 0))?;
    assert_eq!(rt; fault(rt.alloc(), &none), at_row(Refusal::RowCount, 0));
    let many = body(rt.alloc(), 1025, 1024, row(0, 1, 0, 0))?;
    assert_eq!(rt; fault(rt.alloc(), &many), at_row(Refusal::RowCount, 0));
    Ok(())
}

#[test]
fn a_body_has_its_length(rt: HostRuntime) -> Result<(), Fail> {
    assert_eq!(rt; fault(rt.alloc(), &[1]), at_row(Refusal::BodyLength, 0));
    let long = body(rt.alloc(), 1, 1, row(0, 1, 0, 0))?;
    assert_eq!(rt; fault(rt.alloc(), &long), at_row(Refusal::BodyLength, 0));
    Ok(())
}

#[test]
fn a_row_has_1_to_8_offsets(rt: HostRuntime) -> Result<(), Fail> {
    let none = body(rt.alloc(), 3, 2, row(0, 0, 0, 0))?;
    assert_eq!(rt; fault(rt.alloc(), &none), at_row(Refusal::RowDegree, 2));
    let nine = body(rt.alloc(), 2, 1, row(0, 9, 0, 0))?;
    assert_eq!(rt; fault(rt.alloc(), &nine), at_row(Refusal::RowDegree, 1));
    let eight = body(rt.alloc(), 2, 1, row(0, 8, 0, -1))?;
    assert_eq!(rt; fault(rt.alloc(), &eight), None);
    Ok(())
}

#[test]
fn offsets_stay_inside(rt: HostRuntime) -> Result<(), Fail> {
    let below = body(rt.alloc(), 1, 0, row(0, 1, -1, 0))?;
    assert_eq!(rt; fault(rt.alloc(), &below), at_row(Refusal::RowOffset, 0));
    let above = body(rt.alloc(), 3, 2, row(0, 2, -2, 1))?;
    assert_eq!(rt; fault(rt.alloc(), &above), at_row(Refusal::RowOffset, 2));
    let unread = body(rt.alloc(), 3, 2, row(0, 1, -2, 1))?;
    assert_eq!(rt; fault(rt.alloc(), &unread), None);
    Ok(())
}

#[test]
fn timers_have_their_shape(rt: HostRuntime) -> Result<(), Fail> {
    for (states, atom) in [(0, 0), (1025, 0), (1, 32)] {
        assert_eq!(rt; Timer::new(states, atom).err(), Some(Refusal::TimerShape));
    }
    let timer = Timer::new(1024, 31)?;
    assert!(rt; timer.count() == 1024 && timer.atoms(1023) == 1 << 31 && timer.atoms(1022) == 0);
    assert!(rt;
        timer.leads(0, 1)
            && !timer.leads(0, 2)
            && timer.leads(1023, 1023)
            && !timer.leads(1023, 1024)
    );
    Ok(())
}

#[test]
fn a_pile_answers(rt: HostRuntime) -> Result<(), Fail> {
    let left = two_rows(rt.alloc(), 1, 2)?;
    let right = two_rows(rt.alloc(), 2, 4)?;
    let sheets = Product { left, right };
    let pile: Masked<Product<Timer, Product<Sheet, Sheet>>> = Masked {
        below: Product {
            left: Timer::new(3, 4)?,
            right: sheets,
        },
        mask: 0b10110,
    };
    // State 11 is the timer's last with row 1 of both sheets: atom 4, and atoms 1 and 2. Atom 0 of state 0 does not show.
    assert!(rt; pile.count() == 12 && pile.atoms(11) == 0b10110 && pile.atoms(0) == 0b00010);
    // From 3, the timer's first with rows 1 and 1, only 4 is next, its second with rows 0 and 0; from 11 only 8.
    assert!(rt; pile.leads(3, 4) && !pile.leads(3, 5) && !pile.leads(3, 0) && pile.leads(11, 8));
    Ok(())
}

#[test]
fn a_product_over_the_limit_means_its_left_side(rt: HostRuntime) -> Result<(), Fail> {
    let left = Timer::new(33, 0)?;
    let right = Timer::new(32, 1)?;
    assert_eq!(rt; pair_count(&right, &right), Ok(1024));
    assert_eq!(rt; pair_count(&left, &right), Err(Refusal::ProductSize));
    let product = Product { left, right };
    assert!(rt;
        product.count() == 33
            && product.atoms(32) == 1
            && product.leads(0, 1)
            && !product.leads(0, 33)
    );
    Ok(())
}
