// Slots in a file.

use host::Scratch;
use outside::Slot;
use std::test::Fail;

#[test]
fn each_slot_has_a_place_of_its_own(rt: HostRuntime) -> Result<(), Fail> {
    let scratch = Scratch::new(&rt);
    let mut slots = scratch.slots(rt.alloc(), 3)?;
    for (place, slot) in slots.iter_mut().enumerate().rev() {
        let block = vec![in rt.alloc(); place as u8 + 1; 65536]?;
        slot.store(block.as_slice())?;
    }
    // A store in the place of another.
    slots[1].store(&[9; 64])?;
    let rows = [(0, 1), (1, 9), (2, 3)];
    for (place, byte) in rows {
        let mut block = [0u8; 64];
        slots[place].load(&mut block)?;
        assert_eq!(rt; block, [byte; 64]);
    }
    Ok(())
}

#[test]
fn a_load_before_any_store_is_a_fault(rt: HostRuntime) -> Result<(), Fail> {
    let scratch = Scratch::new(&rt);
    let mut slots = scratch.slots(rt.alloc(), 1)?;
    let mut block = [0u8; 64];
    assert!(rt; slots[0].load(&mut block).is_err());
    Ok(())
}
