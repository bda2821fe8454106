// Key trees: every key below a power of two, from one seed.
use cipher::Block;
use cover::Height;
use std::marker::PhantomData;

mod keys;

// A tree of seeds over 2^height keys, under one cipher.
#[derive(Drop)]
pub struct KeyTree<C> {
    pub(crate) height: Height,
    pub(crate) root: Block,
    cipher: PhantomData<C>,
}
