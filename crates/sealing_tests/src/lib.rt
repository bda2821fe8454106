// The worked figures of sealing, run: counts, flags, parcels, refusals in their order, and doubles. Refusals are compared by the
// numbers that the documents give.
#![tactic(auto)]

#[cfg(test)]
mod tests {
    use clients::two_listed;
    use group::{Count, Flags, Group, Moments, Printed};
    use refusal::Refusal;
    use sealing::{Running, is_double, open};
    use source::{KeyList, KeyPair};
    use std::test::Fail;
    use store::{FlatStore, Store};

    // A change of -v.
    fn less(v: u64) -> Count {
        Count::from(v.wrapping_neg())
    }

    #[test]
    fn counts(rt: HostRuntime) -> Result<(), Fail> {
        let keys = [10, 3, 20, 7].map(Count::from);
        let mut cells = [Count::from(99); 5];
        {
            let mut store = FlatStore::new(&mut cells);
            let epoch = Running::new(KeyList { keys: &keys });
            assert_eq!(rt; epoch.append(&mut store, Count::from(5))?, 0);
            assert_eq!(rt; epoch.append(&mut store, less(2))?, 1);
            assert_eq!(rt; epoch.append(&mut store, Count::from(4))?, 2);
            assert_eq!(rt;
                epoch
                    .append(&mut store, Count::from(4))
                    .map_err(Refusal::number),
                Err(34)
            );
            let epoch = epoch.close();
            assert_eq!(rt; open(&store, epoch.keys(), 0, 3)?.value, 7);
            assert_eq!(rt; open(&store, epoch.keys(), 1, 3)?.value, 2);
            assert_eq!(rt; open(&store, epoch.keys(), 2, 2)?.value, 0);
        }
        assert_eq!(rt; cells[0].value, 12);
        assert_eq!(rt; cells[1].value, less(19).value);
        assert_eq!(rt; cells[2].value, 17);
        assert_eq!(rt; cells[3].value, 99);
        assert_eq!(rt; cells[4].value, 99);
        Ok(())
    }

    #[test]
    fn opens_refused_in_order(rt: HostRuntime) -> Result<(), Fail> {
        let keys = [10, 3, 20, 7].map(Count::from);
        let mut cells = [Count::from(0); 2];
        let mut store = FlatStore::new(&mut cells);
        let epoch = Running::new(KeyList { keys: &keys });
        epoch.append(&mut store, Count::from(5))?;
        epoch.append(&mut store, less(2))?;
        assert_eq!(rt;
            epoch
                .append(&mut store, Count::from(4))
                .map_err(Refusal::number),
            Err(31)
        );
        let ends = KeyPair {
            from: 0,
            before: Count::from(10),
            to: 2,
            after: Count::from(20),
        };
        assert_eq!(rt; open(&store, &ends, 0, 2)?.value, 3);
        assert_eq!(rt; open(&store, &ends, 3, 1).map_err(Refusal::number), Err(1));
        assert_eq!(rt; open(&store, &ends, 1, 3).map_err(Refusal::number), Err(32));
        assert_eq!(rt; open(&store, &ends, 1, 2).map_err(Refusal::number), Err(33));
        assert_eq!(rt; open(&store, &ends, 0, 1).map_err(Refusal::number), Err(34));
        assert_eq!(rt; open(&store, &ends, 1, 1).map_err(Refusal::number), Err(33));
        Ok(())
    }

    #[test]
    fn appends_refused_in_order(rt: HostRuntime) {
        let keys = [Count::from(1)];
        let none = Running::new(KeyList { keys: &keys[0..0] });
        let one = Running::new(KeyList { keys: &keys });
        let mut spare = [Count::from(0); 1];
        let mut full = FlatStore::new(&mut spare[0..0]);
        assert_eq!(rt;
            none.append(&mut full, Count::from(1))
                .map_err(Refusal::number),
            Err(31)
        );
        let mut cells = [Count::from(0); 1];
        let mut store = FlatStore::new(&mut cells);
        assert_eq!(rt;
            none.append(&mut store, Count::from(1))
                .map_err(Refusal::number),
            Err(33)
        );
        assert_eq!(rt;
            one.append(&mut store, Count::from(1))
                .map_err(Refusal::number),
            Err(34)
        );
        assert_eq!(rt; store.len(), 0);
    }

    #[test]
    fn flags(rt: HostRuntime) -> Result<(), Fail> {
        let keys = [Flags { bits: 12 }, Flags { bits: 10 }, Flags { bits: 6 }];
        let mut cells = [Flags { bits: 0 }; 2];
        let sum = two_listed(&keys, &mut cells, Flags { bits: 1 }, Flags { bits: 3 })?;
        assert_eq!(rt; sum.bits, 2);
        assert_eq!(rt; cells[0].bits, 7);
        assert_eq!(rt; cells[1].bits, 15);
        Ok(())
    }

    #[test]
    fn parcels(rt: HostRuntime) -> Result<(), Fail> {
        let light = Moments::parcel(3)?;
        let heavy = Moments::parcel(2147483647)?;
        assert_eq!(rt;
            Moments::parcel(2147483648).err().map(Refusal::number),
            Some(21)
        );
        let keys = [Moments::from_words([1, 2, 3]); 3];
        let sum = two_listed(&keys, &mut [light; 2], light, heavy)?;
        assert_eq!(rt; sum.count, 2);
        assert_eq!(rt; sum.sum, 2147483650);
        assert_eq!(rt; sum.squares, 4611686014132420618);
        Ok(())
    }

    #[test]
    fn texts(rt: HostRuntime) -> Result<(), Fail> {
        let heap = rt.alloc();
        assert_eq!(rt; Count::from(7).text(heap)?.as_str(), "7");
        assert_eq!(rt; less(2).text(heap)?.as_str(), "-2");
        assert_eq!(rt; Flags { bits: 5 }.text(heap)?.as_str(), "5");
        let parcels = Moments {
            count: 2,
            sum: 7,
            squares: 25,
        };
        assert_eq!(rt; parcels.text(heap)?.as_str(), "2 parcels, 7 g, squares 25");
        Ok(())
    }

    #[test]
    fn two_lines(rt: HostRuntime) -> Result<(), Fail> {
        let keys = [10, 3, 20].map(Count::from);
        let [five, six] = [5, 6].map(Count::from);
        let mut cells = [Count::from(0); 2];
        let sum = two_listed(&keys, &mut cells, five, less(6))?;
        assert_eq!(rt; sum.value, less(1).value);
        let full = two_listed(&keys, &mut cells[0..1], five, six);
        assert_eq!(rt; full.map_err(Refusal::number), Err(31));
        let keyless = two_listed(&keys[0..2], &mut cells, five, six);
        assert_eq!(rt; keyless.map_err(Refusal::number), Err(34));
        Ok(())
    }

    #[test]
    fn doubles(rt: HostRuntime) -> Result<(), Fail> {
        let lines = [Count::from(5), less(2), Count::from(4)];
        let ends = KeyPair {
            from: 0,
            before: Count::from(10),
            to: 3,
            after: Count::from(7),
        };
        assert!(rt; is_double(&ends, &lines, &[1, 1, 5].map(Count::from)));
        assert!(rt; !is_double(&ends, &lines, &[1, 1, 6].map(Count::from)));
        assert!(rt; !is_double(&ends, &lines, &[1, 6].map(Count::from)));
        // The keys that show it: under them the others have the ciphertexts of the lines.
        let keys = [Count::from(10), less(1), Count::from(19), Count::from(7)];
        let mut cells = [Count::from(0); 3];
        {
            let mut store = FlatStore::new(&mut cells);
            let epoch = Running::new(KeyList { keys: &keys });
            epoch.append(&mut store, Count::from(1))?;
            epoch.append(&mut store, Count::from(1))?;
            epoch.append(&mut store, Count::from(5))?;
        }
        assert_eq!(rt; cells[0].value, 12);
        assert_eq!(rt; cells[1].value, less(19).value);
        assert_eq!(rt; cells[2].value, 17);
        Ok(())
    }
}
