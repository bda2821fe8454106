// Worked cases of joint and coarse sources, run. Refusals are compared by the
// numbers that the documents give.
#![tactic(auto)]

ghost use Rattle.std.specs.Prelude.{◌≡◌, length};
ghost use Rattle.refusal.specs.Judged.{judged};
ghost use Rattle.store.specs.Contents.{nth};
ghost use Rattle.store.specs.Flat.{flat_places};
ghost use Rattle.layers.specs.Posting.{post_rules};
ghost use Rattle.layer_tests.specs.Shown.{shown, refused};

#[cfg(test)]
mod tests {
    use group::{Count, Flags, Group, Moments};
    use layer_clients::{joint_key, second_key};
    use layers::{Coarse, post};
    use refusal::Refusal;
    use source::{KeyList, KeySource};
    use store::FlatStore;

    fn value(key: Option<Count>) -> Option<u64>
        ensures { result ≡ shown key }
    {
        key.map(|x| x.value)
    }

    fn number(answer: Result<usize, Refusal>) -> Result<usize, u32>
        ensures { result ≡ refused answer }
    {
        answer.map_err(Refusal::number)
    }

    // The answer to the first post into these cells.
    fn first_post(
        step: u64,
        cells: &mut [Count],
        fine: &[Count],
        other: &[Count],
    ) -> Result<usize, u32>
        ensures { result ≡ refused (judged (post_rules step (nth fine.now) (nth other.now) (flat_places (length cells.old)) 0) 0) }
    {
        let mut envelopes = FlatStore::new(cells);
        let answer = post(
            step,
            &mut envelopes,
            &KeyList { keys: fine },
            &KeyList { keys: other },
        );
        number(answer)
    }

    #[test]
    fn refusals_in_order(rt: HostRuntime) {
        let some = [Count::from(1)];
        assert_eq!(rt; first_post(0, &mut [], &[], &[]), Err(20));
        assert_eq!(rt; first_post(65537, &mut [], &[], &[]), Err(20));
        assert_eq!(rt; first_post(65536, &mut [], &[], &[]), Err(31));
        assert_eq!(rt; first_post(1, &mut [Count::from(0)], &[], &[]), Err(33));
        assert_eq!(rt; first_post(1, &mut [Count::from(0)], &[], &some), Err(34));
        assert_eq!(rt;
            first_post(65536, &mut [Count::from(0)], &some, &some),
            Ok(0)
        );
    }

    // Of weeks of four days, and without days. Each test here shows its days and envelopes whole.
    #[test]
    fn coarse_has_multiples(rt: HostRuntime) {
        let days = [10, 3, 20, 7, 50].map(Count::from);
        let hiding = [100, 200].map(Count::from);
        let fine = KeyList { keys: &days };
        let other = KeyList { keys: &hiding };
        let mut cells = [Count::from(0); 2];
        let mut envelopes = FlatStore::new(&mut cells);
        assert_eq!(rt; number(post(4, &mut envelopes, &fine, &other)), Ok(0));
        assert_eq!(rt; number(post(4, &mut envelopes, &fine, &other)), Ok(1));
        let weeks = Coarse {
            step: 4,
            envelopes: &envelopes,
            other,
        };
        assert_eq!(rt; value(weeks.key(4)), Some(50));
        assert_eq!(rt; value(weeks.key(6)), None);
        let none = Coarse {
            step: 0,
            envelopes: &envelopes,
            other,
        };
        assert_eq!(rt; value(none.key(0)), None);
    }

    // A reader with the other's first key alone has the first week alone; joined to the days, it has their sum.
    #[test]
    fn layers_on_layers(rt: HostRuntime) {
        let days = [10, 11, 12].map(Count::from);
        let hiding = [7, 8].map(Count::from);
        let fine = KeyList { keys: &days };
        let mut cells = [Count::from(0); 2];
        let mut envelopes = FlatStore::new(&mut cells);
        let other = KeyList { keys: &hiding };
        assert_eq!(rt; number(post(1, &mut envelopes, &fine, &other)), Ok(0));
        assert_eq!(rt; number(post(1, &mut envelopes, &fine, &other)), Ok(1));
        let reader = Coarse {
            step: 1,
            envelopes: &envelopes,
            other: KeyList {
                keys: &[Count::from(7)],
            },
        };
        assert_eq!(rt; value(reader.key(1)), None);
        assert_eq!(rt; value(joint_key(&reader, &fine, 0)), Some(20));
        assert_eq!(rt; value(joint_key(&reader, &fine, 1)), None);
    }

    // Months over weeks over days.
    #[test]
    fn coarse_on_coarse(rt: HostRuntime) {
        let days = [10, 11, 12].map(Count::from);
        let hiding = [7, 8].map(Count::from);
        let fine = KeyList { keys: &days };
        let mut cells = [Count::from(0); 2];
        let mut envelopes = FlatStore::new(&mut cells);
        let other = KeyList { keys: &hiding };
        assert_eq!(rt; number(post(2, &mut envelopes, &fine, &other)), Ok(0));
        assert_eq!(rt; number(post(2, &mut envelopes, &fine, &other)), Ok(1));
        let weeks = Coarse {
            step: 2,
            envelopes: &envelopes,
            other,
        };
        let upper = KeyList {
            keys: &[5, 6].map(Count::from),
        };
        assert_eq!(rt;
            value(second_key(&mut [Count::from(0); 2], 2, &weeks, &upper)),
            Some(12)
        );
        assert_eq!(rt;
            value(second_key(&mut [Count::from(0); 2], 4, &weeks, &upper)),
            None
        );
    }

    #[test]
    fn every_kind(rt: HostRuntime) {
        let few = [1, 2].map(Count::from);
        let many = [Count::from(10), Count::from(u64::MAX), Count::from(30)];
        let (one, other) = (KeyList { keys: &few }, KeyList { keys: &many });
        assert_eq!(rt; value(joint_key(&one, &other, 1)), Some(1));
        assert_eq!(rt; value(joint_key(&one, &other, 2)), None);
        let flags = [Flags { bits: 12 }, Flags { bits: 10 }];
        let list = KeyList { keys: &flags };
        let read = second_key(&mut [Flags { bits: 0 }; 2], 1, &list, &list);
        assert_eq!(rt; read.map(|x| x.bits), Some(10));
        let moments = [Moments::from_words([1, 2, 3]); 2];
        let list = KeyList { keys: &moments };
        let read = second_key(&mut [Moments::identity(); 2], 1, &list, &list);
        assert_eq!(rt; read.map(|x| x.squares), Some(3));
    }
}
