// Tree stores at work: plans, what cells hold, refusals, all three kinds of figures. Refusals are compared by the
// numbers that the documents give.
#![tactic(auto)]

#[cfg(test)]
mod tests {
    use group::{Count, Flags, Moments};
    use refusal::Refusal;
    use source::KeyList;
    use std::test::Fail;
    use store::Store;
    use tree_clients::{fill, two_tree};
    use tree_store::{Plan, TreeStore};

    // How many cells a plan needs, or why it is refused.
    fn needed(fan_out: usize, capacity: usize, cells: usize) -> Result<usize, u32> {
        Plan::new(fan_out, capacity, cells)
            .map(|plan| plan.cells())
            .map_err(Refusal::number)
    }

    #[test]
    fn plans(rt: HostRuntime) {
        assert_eq!(rt; needed(4, 10, 14), Ok(14));
        assert_eq!(rt; needed(4, 10, 13), Err(11));
        assert_eq!(rt; needed(2, 4096, 8192), Ok(8191));
        assert_eq!(rt; needed(2, 4097, 8192), Err(11));
        assert_eq!(rt; needed(2, 1, 1), Ok(1));
        assert_eq!(rt; needed(64, 1048576, 1065221), Ok(1065221));
        assert_eq!(rt; needed(1, 0, 0), Err(9));
        assert_eq!(rt; needed(65, 1, 1), Err(9));
        assert_eq!(rt; needed(64, 0, 0), Err(10));
        assert_eq!(rt; needed(2, 1048577, 0), Err(10));
        assert_eq!(rt; needed(2, 1, 0), Err(11));
    }

    // The figures from 1 to n.
    fn triangle(n: u64) -> u64 {
        n.wrapping_mul(n.wrapping_add(1)) / 2
    }

    #[test]
    fn ten_figures(rt: HostRuntime) -> Result<(), Fail> {
        let plan = Plan::new(4, 10, 15)?;
        assert_eq!(rt; plan.levels(), 3);
        let mut cells = [Count::from(7); 15];
        {
            let mut store = TreeStore::new(plan, &mut cells);
            for i in 1..11 {
                assert_eq!(rt; store.put(Count::from(i)).map_err(Refusal::number), Ok(()));
            }
            assert_eq!(rt;
                store.put(Count::from(11)).map_err(Refusal::number),
                Err(31)
            );
            assert_eq!(rt; store.len(), 10);
            for a in 0..11 {
                for b in a..11 {
                    let sum = triangle(b as u64).wrapping_sub(triangle(a as u64));
                    assert_eq!(rt; store.total(a, b)?.value, sum);
                }
            }
            assert_eq!(rt; store.total(3, 2).map_err(Refusal::number), Err(1));
            assert_eq!(rt; store.total(0, 11).map_err(Refusal::number), Err(32));
        }
        assert_eq!(rt; cells[9].value, 10);
        assert_eq!(rt; cells[10].value, 10);
        assert_eq!(rt; cells[11].value, 26);
        assert_eq!(rt; cells[12].value, 19);
        assert_eq!(rt; cells[13].value, 55);
        assert_eq!(rt; cells[14].value, 7);
        Ok(())
    }

    #[test]
    fn too_few_cells(rt: HostRuntime) -> Result<(), Fail> {
        let plan = Plan::new(4, 10, 14)?;
        let mut cells = [Count::from(7); 13];
        {
            let mut store = TreeStore::new(plan, &mut cells);
            assert_eq!(rt; store.capacity(), 0);
            assert_eq!(rt; store.put(Count::from(1)).map_err(Refusal::number), Err(31));
            assert_eq!(rt; store.total(0, 0)?.value, 0);
        }
        assert_eq!(rt; cells[0].value, 7);
        assert_eq!(rt; cells[12].value, 7);
        assert_eq!(rt;
            fill(plan, &mut [Count::from(7); 14], &[Count::from(1); 12]),
            10
        );
        Ok(())
    }

    #[test]
    fn kinds(rt: HostRuntime) -> Result<(), Fail> {
        let plan = Plan::new(2, 2, 3)?;
        let keys = [10, 3, 20].map(Count::from);
        let [zero, five, six] = [0, 5, 6].map(Count::from);
        let source = KeyList { keys: &keys };
        let sum = two_tree(plan, source, &mut [zero; 3], five, six)?;
        assert_eq!(rt; sum.value, 11);
        let full = two_tree(plan, source, &mut [zero; 2], five, six);
        assert_eq!(rt; full.map_err(Refusal::number), Err(31));
        let source = KeyList { keys: &keys[0..2] };
        let keyless = two_tree(plan, source, &mut [zero; 3], five, six);
        assert_eq!(rt; keyless.map_err(Refusal::number), Err(34));
        let keys = [Flags { bits: 12 }, Flags { bits: 10 }, Flags { bits: 6 }];
        let (x, y) = (Flags { bits: 1 }, Flags { bits: 3 });
        let flags = two_tree(plan, KeyList { keys: &keys }, &mut [x; 3], x, y)?;
        assert_eq!(rt; flags.bits, 2);
        let x = Moments::parcel(3)?;
        let y = Moments::parcel(2147483647)?;
        let keys = [x, y, x];
        let moments = two_tree(plan, KeyList { keys: &keys }, &mut [x; 3], x, y)?;
        assert_eq!(rt; moments.count, 2);
        assert_eq!(rt; moments.sum, 2147483650);
        assert_eq!(rt; moments.squares, 4611686014132420618);
        Ok(())
    }
}
