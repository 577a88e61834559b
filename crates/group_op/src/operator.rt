//! A grouping as a value.
ghost use Rattle.std.specs.Prelude.{◌≡◌, IfOk, IfErr};
ghost use Rattle.store_api.specs.Conditions.{IsBlockCount};
ghost use Rattle.store_api.specs.Shapes.{IsShape};
ghost use Rattle.group_op.specs.Operator.{started};

use crate::flushing::Spare;
use bucket_table::BucketTable;
use partition_stack::Partitions;
use reservation_tree::Memory;
use std::alloc::Global;
use std::marker::Model;
use store_api::{Client, Listed, Shape};

/// Groups the rows that it is fed.
///
/// It has a client of a store, and can't be let go: [`GroupOp::end`] gives the client back.
pub struct GroupOp {
    pub(crate) client: Client,
    pub(crate) shape: Shape,
    pub(crate) parts: Partitions,
    pub(crate) table: Option<BucketTable>,
    // The partial row of the row that is fed.
    pub(crate) fed: Spare,
    // A row that goes from the table to its partition.
    pub(crate) moved: Spare,
}

impl Model for GroupOp {
    ghost use Rattle.group_op.specs.Operator.{Operator};

    ghost Value = { Operator };

    ghost view = { λ op. record { client = op.client; shape = op.shape; parts = op.parts; table = op.table } };
}

impl GroupOp {
    /// A grouping of rows of this shape by this client, whose pages will have so many blocks, a power of two up to 256.
    ///
    /// # Errors
    ///
    /// There was no memory. The client comes back.
    pub fn start(
        alloc: Global,
        c: Client,
        page_blocks: u32,
        shape: &Shape,
    ) -> Result<GroupOp, (Client, Memory)>
        requires shape { IsShape shape.now }
        requires blocks { IsBlockCount page_blocks }
        ensures ok { IfOk result (λ op. op ≡ started c page_blocks shape.now) }
        ensures err { IfErr result (λ e. e.0 ≡ c) }
    {
        let Ok(shape) = copied(alloc, shape) else {
            return Err((c, Memory));
        };
        let Ok(parts) = Partitions::new(alloc, page_blocks) else {
            return Err((c, Memory));
        };
        Ok(GroupOp {
            client: c,
            shape,
            parts,
            table: None,
            fed: Spare::new(alloc),
            moved: Spare::new(alloc),
        })
    }
}

// The same shape again.
fn copied(alloc: Global, shape: &Shape) -> Result<Shape, Memory>
    ensures { IfOk result (λ copy. copy ≡ shape.now) }
{
    Ok(Shape {
        kinds: Listed::of(Vec::from_slice(alloc, shape.kinds.as_slice())?),
        keys: Listed::of(Vec::from_slice(alloc, shape.keys.as_slice())?),
        aggs: Listed::of(Vec::from_slice(alloc, shape.aggs.as_slice())?),
    })
}
