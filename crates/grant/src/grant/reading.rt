// A first grant, and what a grant holds.
ghost use Rattle.std.specs.Prelude.{◌≡◌, ◌≤◌, [], ◌∷◌, length};
ghost use Rattle.cover.specs.Tree.{Cover};
ghost use Rattle.grant.specs.Rows.{zero_row};
ghost use Rattle.grant.specs.Grants.{rows_of, nodes_of, numbers_of, row_over, grant_keys};
ghost use Rattle.grant.specs.Histories.{KeepsTo};

use super::{Grant, Row};
use cipher::Cipher;
use cover::Height;
use group::Group;
use source::KeySource;
use std::marker::PhantomData;

impl<C> Grant<C> {
    // A first grant, to be filled: height 1, and row (0, 0) with seed zero.
    pub fn first() -> Grant<C>
        ensures height { result.height.levels ≡ 1 }
        ensures rows { rows_of result ≡ zero_row ∷ [] }
    {
        Grant {
            height: Height::LOWEST,
            count: 1,
            rows: [Row::BLANK; 128],
            cipher: PhantomData,
        }
    }

    // The height of the tree that the rows lie in.
    pub fn height(&self) -> u32
        ensures is { result ≡ self.now.height.levels }
        ensures some { 1 ≤ result }
        ensures limit { result ≤ 32 }
    {
        self.height.levels()
    }

    // The rows, which are the cover of the keys under them.
    pub fn rows(&self) -> &[Row]
        ensures is { result.now ≡ rows_of self.now }
        ensures some { 1 ≤ length result.now }
        ensures few { length result.now ≤ 128 }
        ensures cover { Cover self.now.height.levels (numbers_of self.now) (nodes_of self.now) }
    {
        &self.rows[..self.count]
    }

    // The row over a key, where there is one.
    pub fn row_over(&self, key: u64) -> Option<Row>
        ensures { result ≡ row_over (rows_of self.now) key }
    {
        // Not by `is_over`, which asks each row for its level: no row of a grant is above level 32, where the wrapping shift is the plain
        // one, and needs no test before it.
        let row = self
            .rows()
            .iter()
            .find(|row| key.wrapping_shr(row.level) == row.index)?;
        Some(*row)
    }
}

// It has the keys under its rows: a cipher call for each level below the row, and one for each word. Laws take the members of the cipher
// and of the kind one by one, since a clause cannot speak of a trait.
impl<G: Group, C: Cipher> KeySource<G> for Grant<C> {
    ghost keys = { grant_keys C.Cipher.encrypted G.Group.KEY_WORDS G.Group.made };

    fn key(&self, number: u64) -> Option<G>
        ensures is { result ≡ grant_keys C.Cipher.encrypted G.Group.KEY_WORDS G.Group.made self.now number }
        ensures lawful { KeepsTo C.Cipher.encrypted G.Group.KEY_WORDS G.Group.made self.now }
    {
        let row = self.row_over(number)?;
        row.key::<C, G>(number)
    }
}
