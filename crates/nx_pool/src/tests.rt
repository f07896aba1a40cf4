ghost use Rattle.std.specs.Prelude.{◌≤◌, ◌<◌, ◌+◌, ◌^◌, ◌++◌, ◌↔◌, length, IfOk, IsOk};
ghost use Rattle.nx_pool.specs.Chains.{length_of, blocks_for};
ghost use Rattle.nx_pool.specs.Effects.{IsHeld, Becomes};

use super::*;
use std::test::Fail;

// Puts bytes after those of a chain, in any store.
fn append<B: BlockStore>(store: &mut B, chain: &mut Chain, bytes: &[u8]) -> Result<(), NoBlocks>
    requires held { IsHeld (B.holds store.old) chain.old }
    requires short { length_of chain.old + length bytes.now < 2 ^ 32 }
    ensures ok { IfOk result (λ _. Becomes (B.holds store.old) (B.holds store.new) (B.content store.old) (B.content store.new) chain.old chain.new
        (B.content store.old chain.old ++ bytes.now)) }
    ensures fits { IsOk result ↔ (blocks_for (length_of chain.old + length bytes.now) ≤ B.free_blocks store.old + blocks_for (length_of chain.old)) }
{
    let at = chain.bytes();
    store.grow(chain, at + bytes.len() as u32)?;
    store.write(chain, at, bytes);
    Ok(())
}

#[test]
fn a_lack_of_blocks_has_both_numbers(rt: HostRuntime) -> Result<(), Fail> {
    let text = format!(in rt.alloc(); "{}", NoBlocks { need: 5, free: 3 })?;
    assert_eq!(rt; text.as_str(), "5 blocks are needed and 3 are free");
    Ok(())
}

#[test]
fn sixteen_blocks_have_1024_bytes(rt: HostRuntime) -> Result<(), Fail> {
    let mut store = VecBlocks::new(rt.alloc(), 16)?;
    assert_eq!(rt; store.free(), 16);
    let mut chain = store.take_chain(1024)?;
    assert_eq!(rt; store.free(), 0);
    match store.grow(&mut chain, 1025) {
        Ok(()) => assert!(rt; false),
        Err(refused) => {
            assert_eq!(rt; refused, NoBlocks { need: 1, free: 0 });
            assert_eq!(rt; chain.bytes(), 1024);
            store.give(chain);
            assert_eq!(rt; store.free(), 16);
        }
    }
    Ok(())
}

#[test]
fn a_write_crosses_borders_and_leaves_the_other_chain(rt: HostRuntime) -> Result<(), Fail> {
    let mut store = VecBlocks::new(rt.alloc(), 8)?;
    let long = store.take_chain(150)?;
    let short = store.take_chain(5)?;
    assert_eq!(rt; store.free(), 4);
    store.write(&short, 0, b"short");
    store.write(&long, 60, b"over one border");
    store.write(&long, 126, b"over");
    let mut read = [0; 17];
    store.read(&long, 59, &mut read);
    assert_eq!(rt; read.as_slice(), b"\0over one border\0".as_slice());
    let mut end = [7; 24];
    store.read(&long, 126, &mut end);
    assert_eq!(rt;
        end.as_slice(),
        b"over\0\0\0\0\0\0\0\0\0\0\0\0\0\0\0\0\0\0\0\0".as_slice()
    );
    let mut other = [0; 5];
    store.read(&short, 0, &mut other);
    assert_eq!(rt; other.as_slice(), b"short".as_slice());
    Ok(())
}

#[test]
fn an_empty_chain_has_no_block(rt: HostRuntime) -> Result<(), Fail> {
    let mut store = VecBlocks::new(rt.alloc(), 2)?;
    let mut chain = store.take_chain(0)?;
    assert_eq!(rt; (chain.bytes(), store.free()), (0, 2));
    store.read(&chain, 0, &mut []);
    store.grow(&mut chain, 65)?;
    assert_eq!(rt; (chain.bytes(), store.free()), (65, 0));
    let mut last = [7];
    store.read(&chain, 64, &mut last);
    assert_eq!(rt; last, [0]);
    store.give(chain);
    assert_eq!(rt; store.free(), 2);
    Ok(())
}

#[test]
fn an_append_goes_on_in_the_next_block(rt: HostRuntime) -> Result<(), Fail> {
    let mut store = VecBlocks::new(rt.alloc(), 2)?;
    let mut chain = store.take_chain(61)?;
    append(&mut store, &mut chain, b"append")?;
    assert_eq!(rt; (chain.bytes(), store.free()), (67, 0));
    let mut read = [7; 7];
    store.read(&chain, 60, &mut read);
    assert_eq!(rt; read.as_slice(), b"\0append".as_slice());
    no_block_is_lost::<VecBlocks>();
    a_write_changes_its_bytes_alone::<VecBlocks>();
    Ok(())
}
