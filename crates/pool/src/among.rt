//! What the sessions of a shared pool have above them.
use session_calls::Opened;
use std::marker::PhantomData;

/// Names with what a pool opened as `T` does, and that its sessions share what is above them.
pub struct Among<T: Opened>(PhantomData<T>);

impl<T: Opened> Opened for Among<T> {
    ghost use Rattle.pool.specs.Sitting.{shared};

    ghost opening = { T.opening };

    ghost outset = { shared T.outset.told };

    ghost first = { T.first };

    ghost named = { T.named };

    ghost table = { T.table };
}
