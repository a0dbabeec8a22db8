use crate::*;

#[test]
fn a_chip_image_holds_a_cell_of_all_pages_before_the_next(rt: HostRuntime) {
    let mut octets = [0xEE; 115];
    let mut image = ChipImage {
        octets: &mut octets,
    };
    assert_eq!(rt; image.store(1, 2, 0x1234), Ok(()));
    drop(image);
    assert!(rt; octets[9..13] == [0xEE, 0x12, 0x34, 0xEE]);
}

#[test]
fn joined_memories_join(rt: HostRuntime) {
    let mut cells = [5; 60];
    let mut octets = [0; 56];
    let working = WorkingMemory { cells: &mut cells };
    let image = ChipImage {
        octets: &mut octets,
    };
    let mut memory = JoinedMemory {
        first: JoinedMemory {
            first: NoMemory,
            second: working,
        },
        second: image,
    };
    assert_eq!(rt; restore(&mut memory, 2, &[7; CELLS]), Ok(()));
    assert_eq!(rt; load(&memory, 1), Ok([5; CELLS]));
    assert_eq!(rt; memory.fetch(2, 27), Ok(7));
    assert_eq!(rt; memory.fetch(3, 28), Err(MemoryRefusal::NoPage));
}
