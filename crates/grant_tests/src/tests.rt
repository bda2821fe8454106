// Covers, refusals, scratch and keys of worked grants, at both ciphers. Refusals are compared by the
// numbers that the documents give.
use Undone::{NotWiped, Refused};
use cipher::{Aes128, Block, Cipher, Speck128};
use cover::Span;
use grant::{Grant, KeyTree, issue, narrow};
use group::{Count, Group, Moments};
use refusal::Refusal;
use sealing::{Running, open};
use source::KeySource;
use std::test::Fail;
use store::{FlatStore, Store};

const ROOT: Block = Block { high: 5, low: 9 };

// Why a call below is not done.
#[derive(Clone, Copy, Debug, PartialEq)]
enum Undone {
    // By the number of its refusal.
    Refused(u32),
    // It left a word of the scratch that is not zero.
    NotWiped,
}

fn done(answer: Result<(), Refusal>, scratch: &[u64]) -> Result<(), Undone> {
    if scratch.iter().any(|word| *word != 0) {
        return Err(NotWiped);
    }
    answer.map_err(|why| Refused(why.number()))
}

fn issued_over<C: Cipher>(
    tree: &KeyTree<C>,
    spans: &[Span],
    scratch: &mut [u64],
    grant: &mut Grant<C>,
) -> Result<(), Undone> {
    let answer = issue(tree, spans, scratch, grant);
    done(answer, scratch)
}

fn narrowed_over<C: Cipher>(
    grant: &mut Grant<C>,
    from: u64,
    to: u64,
    scratch: &mut [u64],
) -> Result<(), Undone> {
    let answer = narrow(grant, Span { from, to }, scratch);
    done(answer, scratch)
}

fn issued<C: Cipher>(
    tree: &KeyTree<C>,
    spans: &[Span],
    grant: &mut Grant<C>,
) -> Result<(), Undone> {
    issued_over(tree, spans, &mut [7; 70], grant)
}

fn narrowed<C: Cipher>(grant: &mut Grant<C>, from: u64, to: u64) -> Result<(), Undone> {
    narrowed_over(grant, from, to, &mut [7; 66])
}

// Whether the rows of the grant are these nodes, each by its level and index, as the cases write them.
fn has_rows<C>(grant: &Grant<C>, nodes: &[(u32, u64)]) -> bool {
    let rows = grant.rows().iter().map(|row| (row.level, row.index));
    rows.eq(nodes.iter().copied())
}

// The words of a key at two kinds of figures, where the grant has it.
fn words<C: Cipher>(grant: &Grant<C>, number: u64) -> Option<[u64; 4]> {
    let count: Count = grant.key(number)?;
    let moments: Moments = grant.key(number)?;
    Some([count.value, moments.count, moments.sum, moments.squares])
}

#[test]
fn rows_of_spans(rt: HostRuntime) -> Result<(), Fail> {
    let tree: KeyTree<Aes128> = KeyTree::new(3, ROOT)?;
    let mut grant = Grant::first();
    assert!(rt; has_rows(&grant, &[(0, 0)]));
    issued(&tree, &[Span { from: 1, to: 7 }], &mut grant)?;
    assert!(rt; has_rows(&grant, &[(0, 1), (1, 1), (1, 2), (0, 6)]));
    narrowed(&mut grant, 2, 5)?;
    assert!(rt; has_rows(&grant, &[(1, 1), (0, 4)]));
    issued(&tree, &[Span { from: 0, to: 8 }], &mut grant)?;
    assert!(rt; has_rows(&grant, &[(3, 0)]));
    Ok(())
}

// In the order of the calls: each refusal of an issue in a tree of height 3, a narrow over too little scratch, and an issue that
// ends with the last key.
fn issue_answers<C: Cipher>(tree: &KeyTree<C>, grant: &mut Grant<C>) -> [Result<(), Undone>; 8] {
    let empty = Span { from: 9, to: 9 };
    let below = Span { from: 1, to: 3 };
    let past = Span { from: 3, to: 9 };
    let touching = Span { from: 3, to: 8 };
    let short = issued_over(tree, &[], &mut [7; 65], grant);
    let narrow = narrowed_over(grant, 9, 9, &mut [7; 65]);
    let none = issued(tree, &[], grant);
    let many = issued(tree, &[empty; 17], grant);
    let nothing = issued(tree, &[empty], grant);
    let beyond = issued(tree, &[below, past], grant);
    let close = issued(tree, &[below, touching], grant);
    let passes = issued(tree, &[touching], grant);
    [short, narrow, none, many, nothing, beyond, close, passes]
}

#[test]
fn issue_refuses_in_order(rt: HostRuntime) -> Result<(), Fail> {
    let tree: KeyTree<Speck128> = KeyTree::new(3, ROOT)?;
    let mut grant = Grant::first();
    assert!(rt;
        issue_answers(&tree, &mut grant)
            == [
                Err(Refused(19)),
                Err(Refused(19)),
                Err(Refused(5)),
                Err(Refused(6)),
                Err(Refused(2)),
                Err(Refused(3)),
                Err(Refused(4)),
                Ok(())
            ]
    );
    assert!(rt; has_rows(&grant, &[(0, 3), (2, 1)]));
    Ok(())
}

// Each refusal of a narrow of keys 1 to 6, and an issue over too little scratch.
fn narrow_answers<C: Cipher>(tree: &KeyTree<C>, grant: &mut Grant<C>) -> [Result<(), Undone>; 6] {
    let filled = issued(tree, &[Span { from: 1, to: 7 }], grant);
    let issue = issued_over(tree, &[], &mut [7; 65], grant);
    let short = narrowed_over(grant, 9, 9, &mut [7; 65]);
    let nothing = narrowed(grant, 9, 9);
    let beyond = narrowed(grant, 7, 9);
    let none_left = narrowed(grant, 7, 8);
    [filled, issue, short, nothing, beyond, none_left]
}

#[test]
fn narrow_refuses_in_order(rt: HostRuntime) -> Result<(), Fail> {
    let tree: KeyTree<Speck128> = KeyTree::new(3, ROOT)?;
    let mut grant = Grant::first();
    assert!(rt;
        narrow_answers(&tree, &mut grant)
            == [
                Ok(()),
                Err(Refused(19)),
                Err(Refused(19)),
                Err(Refused(2)),
                Err(Refused(3)),
                Err(Refused(35))
            ]
    );
    assert!(rt; has_rows(&grant, &[(0, 1), (1, 1), (1, 2), (0, 6)]));
    Ok(())
}

// Spans of a tree of height 32: one row, twice 54 rows, and one row again. Cut at both ends they would be over 128.
fn wide_answers<C: Cipher>(tree: &KeyTree<C>, grant: &mut Grant<C>) -> [Result<(), Undone>; 3] {
    let first = Span {
        from: 0,
        to: 0x10000000,
    };
    let second = Span {
        from: 0x10000001,
        to: 0x1fffffff,
    };
    let third = Span {
        from: 0x20000001,
        to: 0x2fffffff,
    };
    let last = Span {
        from: 0x30000000,
        to: 0x40000000,
    };
    let shorter = Span {
        from: 0x30000001,
        to: 0x3fffffff,
    };
    let fits = issued(tree, &[first, second, third, last], grant);
    let narrower = narrowed(grant, 1, 0x3fffffff);
    let wider = issued(tree, &[second, third, shorter], grant);
    [fits, narrower, wider]
}

#[test]
fn too_many_rows(rt: HostRuntime) -> Result<(), Fail> {
    let tree: KeyTree<Speck128> = KeyTree::new(32, ROOT)?;
    let mut grant = Grant::first();
    assert!(rt; wide_answers(&tree, &mut grant) == [Ok(()), Err(Refused(7)), Err(Refused(7))]);
    assert_eq!(rt; grant.rows().len(), 110);
    Ok(())
}

// The words were worked out apart from this code.
#[test]
fn keys_under_aes(rt: HostRuntime) -> Result<(), Fail> {
    let tree: KeyTree<Aes128> = KeyTree::new(3, ROOT)?;
    let mut grant = Grant::first();
    narrow_answers(&tree, &mut grant)[0]?;
    narrowed(&mut grant, 2, 5)?;
    assert!(rt;
        words(&grant, 3)
            == Some([
                0x3b15acdbd9ac524b,
                0x3b15acdbd9ac524b,
                0x1a3d07889ab8a767,
                0x9ae242e11a089820,
            ])
    );
    assert!(rt; words(&grant, 1).is_none() && words(&grant, 5).is_none());
    Ok(())
}

#[test]
fn keys_under_speck(rt: HostRuntime) -> Result<(), Fail> {
    let tree: KeyTree<Speck128> = KeyTree::new(3, ROOT)?;
    let mut grant = Grant::first();
    issued(&tree, &[Span { from: 3, to: 4 }], &mut grant)?;
    assert!(rt;
        words(&grant, 3)
            == Some([
                0xc8e34025fe47267a,
                0xc8e34025fe47267a,
                0xfde7ad27ba03a5ef,
                0x75329c0b102a3bec,
            ])
    );
    Ok(())
}

// Lines 10, 20, .. 60, sealed with the tree and opened through the grant, as a sum or the number of a refusal.
fn shared<C: Cipher>(
    tree: KeyTree<C>,
    grant: &Grant<C>,
    a: usize,
    b: usize,
) -> Result<Result<u64, u32>, Refusal> {
    let mut cells = [Count::identity(); 6];
    let mut store = FlatStore::new(&mut cells);
    let epoch = Running::new(tree);
    for tens in 1..=6 {
        epoch.append(&mut store, Count::from(10 * tens))?;
    }
    let sum: Result<Count, Refusal> = open(&store, grant, a, b);
    Ok(sum.map(|figure| figure.value).map_err(Refusal::number))
}

#[test]
fn opens_what_was_granted(rt: HostRuntime) -> Result<(), Fail> {
    let tree: KeyTree<Speck128> = KeyTree::new(3, ROOT)?;
    let mut grant = Grant::first();
    issued(&tree, &[Span { from: 2, to: 5 }], &mut grant)?;
    assert!(rt; shared(tree, &grant, 2, 4)? == Ok(70));
    assert!(rt; shared(KeyTree::new(3, ROOT)?, &grant, 1, 4)? == Err(33));
    assert!(rt; shared(KeyTree::new(3, ROOT)?, &grant, 2, 5)? == Err(34));
    Ok(())
}
