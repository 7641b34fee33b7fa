use crate::orders;
use std::test::Fail;

#[test]
fn each_worker_is_given_the_whole_order(rt: HostRuntime) -> Result<(), Fail> {
    let mut all = orders(rt.alloc(), &[2, 0, 1], 2)?;
    assert_eq!(rt; all.len(), 2);
    for order in all.iter_mut() {
        let suggestions = [
            order.suggest(0),
            order.suggest(1),
            order.suggest(2),
            order.suggest(3),
            order.suggest(u64::MAX),
            order.suggest(1),
        ];
        let expected = [Some(2), Some(0), Some(1), None, None, Some(0)];
        assert!(rt; suggestions == expected);
    }
    Ok(())
}

#[test]
fn an_empty_order_suggests_nothing(rt: HostRuntime) -> Result<(), Fail> {
    let mut all = orders(rt.alloc(), &[], 1)?;
    assert_eq!(rt; all.len(), 1);
    assert_eq!(rt; all[0].suggest(0), None);
    Ok(())
}
