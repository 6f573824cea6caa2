use crate::Bank;
use crate::refusals::Refusal;
use std::test::Fail;

#[test]
fn first_in_first_out_round_the_ring(rt: HostRuntime) {
    let mut memory = [0u32; 6];
    let mut bank = Bank::make(&mut memory, 2, 3);
    for x in [11, 12, 13] {
        assert_eq!(rt; bank.put(1, x), Ok(()));
    }
    assert_eq!(rt; bank.put(0, 1), Ok(()));
    assert_eq!(rt; bank.take(1), Ok(11));
    assert_eq!(rt; bank.take(1), Ok(12));
    assert_eq!(rt; bank.put(1, 14), Ok(()));
    assert_eq!(rt; bank.put(1, 15), Ok(()));
    assert_eq!(rt; bank.count(1), Ok(3));
    for x in [13, 14, 15] {
        assert_eq!(rt; bank.take(1), Ok(x));
    }
    assert_eq!(rt; bank.count(1), Ok(0));
    assert_eq!(rt; bank.take(0), Ok(1));
}

#[test]
fn check_refuses_in_order(rt: HostRuntime) {
    let memory = [0u8; 12];
    assert_eq!(rt; Bank::check(&memory, 0, 0), Err(Refusal::Queues));
    assert_eq!(rt; Bank::check(&memory, 133, 0), Err(Refusal::Queues));
    assert_eq!(rt; Bank::check(&memory, 132, 0), Err(Refusal::Places));
    assert_eq!(rt; Bank::check(&memory, 1, 1025), Err(Refusal::Places));
    assert_eq!(rt; Bank::check(&memory, 1, 1024), Err(Refusal::Memory));
    assert_eq!(rt; Bank::check(&memory, 65535, 65535), Err(Refusal::Queues));
    assert_eq!(rt; Bank::check(&memory, 3, 5), Err(Refusal::Memory));
    assert_eq!(rt; Bank::check(&memory, 3, 4), Ok(()));
}

#[test]
fn calls_refuse_in_order(rt: HostRuntime) {
    let mut memory = [0u8; 2];
    let mut bank = Bank::make(&mut memory, 2, 1);
    assert_eq!(rt; bank.take(2), Err(Refusal::NoQueue));
    assert_eq!(rt; bank.take(1), Err(Refusal::Empty));
    assert_eq!(rt; bank.put(1, 7), Ok(()));
    assert_eq!(rt; bank.put(1, 8), Err(Refusal::Full));
    assert_eq!(rt; bank.put(2, 8), Err(Refusal::NoQueue));
    assert_eq!(rt; bank.put(258, 8), Err(Refusal::NoQueue));
    assert_eq!(rt; bank.count(2), Err(Refusal::NoQueue));
    assert_eq!(rt; bank.take(1), Ok(7));
    assert_eq!(rt; bank.put(1, 9), Ok(()));
    assert_eq!(rt; bank.take(1), Ok(9));
}

#[test]
fn refused_numbers_make_no_queues(rt: HostRuntime) {
    let mut memory = [5u8; 4];
    {
        let mut bank = Bank::make(&mut memory, 5, 1);
        assert_eq!(rt; bank.queues(), 0);
        assert_eq!(rt; bank.places(), 0);
        assert_eq!(rt; bank.put(0, 1), Err(Refusal::NoQueue));
    }
    assert_eq!(rt; memory[0], 5);
}

#[test]
fn numbers_of_the_refusals(rt: HostRuntime) {
    assert_eq!(rt; Refusal::Queues.number(), 1);
    assert_eq!(rt; Refusal::Places.number(), 2);
    assert_eq!(rt; Refusal::Memory.number(), 3);
    assert_eq!(rt; Refusal::NoQueue.number(), 4);
    assert_eq!(rt; Refusal::Full.number(), 6);
    assert_eq!(rt; Refusal::Empty.number(), 7);
}

#[test]
fn largest_bank(rt: HostRuntime) -> Result<(), Fail> {
    let mut memory = vec![in rt.alloc(); 0u16; 135168]?;
    assert_eq!(rt; Bank::check(&memory, 132, 1024), Ok(()));
    let mut bank = Bank::make(&mut memory, 132, 1024);
    for x in 0..1024 {
        assert_eq!(rt; bank.put(131, x), Ok(()));
    }
    assert_eq!(rt; bank.put(131, 1024), Err(Refusal::Full));
    assert_eq!(rt; bank.count(130), Ok(0));
    for x in 0..1024 {
        assert_eq!(rt; bank.take(131), Ok(x));
    }
    assert_eq!(rt; bank.take(131), Err(Refusal::Empty));
    Ok(())
}
