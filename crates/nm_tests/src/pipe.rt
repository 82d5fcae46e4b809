use nm_pipe::give;
use nm_region::Region;
use std::process::Abort;

/// Two buffers are lent for three frames. The buffers stay out: the test ends by the panic that it
/// expects.
#[test]
#[should_panic(expected = "the buffers stay out")]
fn two_of_three_are_taken(rt: HostRuntime) {
    let Ok((_region, mut lent)) = Region::new(rt.alloc(), 2) else {
        panic!(rt; "no memory");
    };
    let Ok(mut pending) = vec![in rt.alloc(); 7, 8, 9] else {
        panic!(rt; "no memory");
    };
    let Ok(mut taken) = Vec::with_capacity(rt.alloc(), 2) else {
        panic!(rt; "no memory");
    };
    let Ok(mut back) = Vec::with_capacity(rt.alloc(), 2) else {
        panic!(rt; "no memory");
    };
    if lent.len() == 2 {
        give(&mut pending, &mut taken, &mut lent, &mut back);
        assert!(rt; taken.as_slice() == [7, 8].as_slice() && pending.as_slice() == [9].as_slice());
        assert!(rt; lent.is_empty() && back.len() == 2);
        assert!(rt; back[0].index() == 2 && back[1].index() == 3);
    }
    panic!(rt; "the buffers stay out");
}
