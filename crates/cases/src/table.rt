// A table at three types of element: tree entries, instructions and cells.
use tables::{Full, Table};

#[derive(Clone, Copy, Debug, PartialEq, Eq)]
struct Entry {
    place: usize,
    first: usize,
    next: usize,
}

#[derive(Clone, Copy, Debug, PartialEq, Eq)]
enum Instr {
    Push(i32),
    Add,
    Jump(usize),
}

const EMPTY: Entry = Entry {
    place: 0,
    first: 0,
    next: 0,
};

#[test]
fn entries(rt: HostRuntime) {
    let leaf = Entry {
        place: 4,
        first: 0,
        next: 7,
    };
    let mut slots = [leaf; 2];
    let mut table = Table::make(&mut slots);
    assert_eq!(rt; table.len(), 0);
    assert_eq!(rt; table.remaining(), 2);
    assert!(rt; table.push(EMPTY).is_ok());
    assert!(rt; table.push(leaf).is_ok());
    assert_eq!(rt; table.push(EMPTY), Err(Full));
    assert_eq!(rt; table.len(), 2);
    assert_eq!(rt; table.get(1), Some(leaf));
    assert_eq!(rt; table.get(2), None);
}

#[test]
fn instructions(rt: HostRuntime) {
    let mut slots = [Instr::Add; 3];
    let mut table = Table::make(&mut slots);
    assert!(rt; table.push(Instr::Push(-1)).is_ok());
    assert!(rt; table.push(Instr::Jump(0)).is_ok());
    assert!(rt; table.set(1, Instr::Jump(2)));
    assert!(rt; !table.set(2, Instr::Add));
    assert_eq!(rt; table.items(), [Instr::Push(-1), Instr::Jump(2)].as_slice());
}

#[test]
fn cells(rt: HostRuntime) {
    let mut slots = [7; 4];
    let mut table = Table::make(&mut slots);
    assert!(rt; table.push(i32::MIN).is_ok());
    table.clear(0);
    assert_eq!(rt; table.len(), 0);
    assert_eq!(rt; table.capacity(), 4);
    assert!(rt; table.push(1).is_ok());
    assert_eq!(rt; table.items(), [1].as_slice());
}

#[test]
fn runs_of_cells(rt: HostRuntime) {
    let mut slots = [7; 4];
    let mut table = Table::make(&mut slots);
    assert!(rt; table.push(1).is_ok());
    assert!(rt; table.extend_from_slice(&[2, 3]).is_ok());
    assert_eq!(rt; table.extend_from_slice(&[4, 5]), Err(Full));
    assert_eq!(rt; table.items(), [1, 2, 3].as_slice());
    assert_eq!(rt; table.remaining(), 1);
    assert!(rt; table.extend_from_slice(&[]).is_ok());
    assert!(rt; table.extend_from_slice(&[4]).is_ok());
    assert_eq!(rt; table.items(), [1, 2, 3, 4].as_slice());
}

#[test]
fn cleared_slots(rt: HostRuntime) {
    let mut slots = [7; 3];
    {
        let mut table = Table::make(&mut slots);
        assert!(rt; table.push(8).is_ok());
        table.clear(0);
    }
    assert_eq!(rt; &slots[0..], [0, 0, 0].as_slice());
}
