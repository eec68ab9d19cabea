ghost use Rattle.mt_keeper.specs.Keeping.{IsNext, Puts};

use super::*;
use std::test::Fail;

// One load through the bound.
fn load_one<K: Keeper>(alloc: Global, keeper: &mut K) -> Result<Records, KeeperRefused> {
    keeper.load(alloc)
}

// One put through the bound.
fn put_one<K: Keeper>(
    alloc: Global,
    keeper: &mut K,
    number: u32,
    text: &[u8],
) -> Result<(), KeeperRefused>
    requires { IsNext (K.records keeper.old) number }
    ensures records { Puts (K.records keeper.old) (K.records keeper.new) result text.now }
{
    keeper.put(alloc, number, text)
}

#[test]
fn memory_keeper_fails_as_told(rt: HostRuntime) -> Result<(), Fail> {
    let failing = [2, 4].to_vec(rt.alloc())?;
    let mut keeper = MemoryKeeper::new(Records::new(Vec::new(rt.alloc())), failing);
    assert_eq!(rt; put_one(rt.alloc(), &mut keeper, 1, b"one"), Ok(()));
    assert_eq!(rt;
        put_one(rt.alloc(), &mut keeper, 2, b"two"),
        Err(KeeperRefused::Fault)
    );
    assert_eq!(rt; put_one(rt.alloc(), &mut keeper, 2, b"three"), Ok(()));
    assert_eq!(rt;
        load_one(rt.alloc(), &mut keeper).err(),
        Some(KeeperRefused::Fault)
    );
    let records = load_one(rt.alloc(), &mut keeper)?;
    assert_eq!(rt; records.len(), 2);
    assert_eq!(rt; records.get(1), b"one".as_slice());
    assert_eq!(rt; records.get(2), b"three".as_slice());
    Ok(())
}

#[test]
fn steady_keeper_keeps_all(rt: HostRuntime) -> Result<(), Fail> {
    let mut texts = Vec::new(rt.alloc());
    texts.push(b"one".to_vec(rt.alloc())?)?;
    let mut keeper = SteadyKeeper::new(Records::new(texts));
    assert_eq!(rt; put_one(rt.alloc(), &mut keeper, 2, b""), Ok(()));
    let records = load_one(rt.alloc(), &mut keeper)?;
    assert_eq!(rt; records.len(), 2);
    assert_eq!(rt; records.get(1), b"one".as_slice());
    assert_eq!(rt; records.get(2), b"".as_slice());
    Ok(())
}
