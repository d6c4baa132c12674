// Files that are listed, and files that are refused.
use forms::{Refusal, Rejected};
use modefile::part::Part;
use modefile::reader::Fresh;
use std::alloc::{AllocError, Global};
use std::test::Fail;

// Why a file is not listed, if it is not.
fn fault(bytes: &[u8]) -> Option<Rejected> {
    Fresh::begin(bytes).list().err()
}

#[test]
fn parts_come_in_order(rt: HostRuntime) -> Result<(), Fail> {
    let bytes = [
        3, 1, 3, 0, 0, 0, 3, 0, 0, 0, 0, 2, 2, 0, 0, 0, 7, 8, 9, 5, 6,
    ];
    let forms = Part::Forms {
        body: &[7, 8, 9],
        place: 16,
    };
    let tree = Part::Tree {
        body: &[],
        place: 19,
    };
    let modes = Part::Modes {
        body: &[5, 6],
        place: 19,
    };
    let mut file = Fresh::begin(&bytes).list()?;
    assert_eq!(rt; file.next_part(), Ok(forms));
    assert_eq!(rt; file.next_part(), Ok(tree));
    assert_eq!(rt; file.next_part(), Ok(modes));
    assert_eq!(rt; file.next_part(), Err(Refusal::NoPartLeft));
    let mut again = file.close().reopen().list()?;
    assert_eq!(rt; again.next_part(), Ok(forms));
    Ok(())
}

// A file of empty forms bodies.
fn empty_forms(heap: Global, parts: u8) -> Result<Vec<u8>, AllocError> {
    let mut file = Vec::from_slice(heap, &[parts])?;
    for _ in 0..parts {
        file.extend_from_slice(&[1, 0, 0, 0, 0])?;
    }
    Ok(file)
}

#[test]
fn a_file_has_at_most_16_parts(rt: HostRuntime) -> Result<(), Fail> {
    assert_eq!(rt; fault(&empty_forms(rt.alloc(), 16)?), None);
    assert_eq!(rt;
        fault(&empty_forms(rt.alloc(), 17)?),
        Some(Refusal::FileShape.at(0))
    );
    Ok(())
}

#[test]
fn files_are_refused(rt: HostRuntime) {
    assert_eq!(rt; fault(&[]), Some(Refusal::FileShape.at(0)));
    assert_eq!(rt; fault(&[0]), Some(Refusal::FileShape.at(0)));
    assert_eq!(rt; fault(&[1, 1, 0, 0, 0]), Some(Refusal::FileShape.at(0)));
    assert_eq!(rt;
        fault(&[2, 1, 0, 0, 0, 0, 4, 0, 0, 0, 0]),
        Some(Refusal::PartKind.at(1))
    );
    assert_eq!(rt; fault(&[1, 0, 9, 0, 0, 0]), Some(Refusal::PartKind.at(0)));
    assert_eq!(rt;
        fault(&[1, 2, 1, 0, 0, 0]),
        Some(Refusal::PartLengths.at(0))
    );
    assert_eq!(rt;
        fault(&[1, 2, 0, 0, 0, 0, 0]),
        Some(Refusal::PartLengths.at(0))
    );
}

#[test]
fn a_file_has_at_most_65536_bytes(rt: HostRuntime) {
    let mut bytes = [0u8; 65537];
    bytes[..4].copy_from_slice(&[1, 3, 250, 255]);
    assert_eq!(rt; fault(&bytes[..65536]), None);
    bytes[2] = 251;
    assert_eq!(rt; fault(&bytes), Some(Refusal::FileShape.at(0)));
}
