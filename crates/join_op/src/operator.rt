//! A join as a value.
ghost use Rattle.std.specs.Prelude.{◌≡◌, IfOk, IfErr, map};
ghost use Rattle.store_api.specs.Conditions.{IsBlockCount};
ghost use Rattle.store_api.specs.Shapes.{IsJoinShape};
ghost use Rattle.join_op.specs.Operator.{started};

use crate::feeding::Spare;
use partition_stack::Partitions;
use reservation_tree::Memory;
use std::alloc::Global;
use std::marker::Model;
use store_api::{Client, JoinShape, Listed};

/// Joins the rows of two sides.
///
/// It has a client of a store, and can't be let go: [`JoinOp::end`] gives the client back.
pub struct JoinOp {
    pub(crate) client: Client,
    pub(crate) shape: JoinShape,
    // The columns that are to be equal, of each side.
    pub(crate) left_columns: Vec<usize>,
    pub(crate) right_columns: Vec<usize>,
    pub(crate) left: Partitions,
    pub(crate) right: Partitions,
    // Whether no page of the left side is pinned.
    pub(crate) left_rests: bool,
    // The row that is fed, and its key.
    pub(crate) fed: Spare,
}

impl Model for JoinOp {
    ghost use Rattle.join_op.specs.Inside.{IsInside};
    ghost use Rattle.join_op.specs.Operator.{Operator};

    ghost Value = { Operator };

    ghost view = { λ op. record { client = op.client; shape = op.shape; left = op.left; right = op.right } };

    ghost invariant = { λ op. IsInside op.shape op.left_columns.items op.right_columns.items op.left_rests op.left op.right };
}

impl JoinOp {
    /// A join of rows of this shape by this client, whose pages will have so many blocks, a power of two up to 256.
    ///
    /// # Errors
    ///
    /// There was no memory. The client comes back.
    pub fn start(
        alloc: Global,
        c: Client,
        page_blocks: u32,
        shape: &JoinShape,
    ) -> Result<JoinOp, (Client, Memory)>
        requires shape { IsJoinShape shape.now }
        requires blocks { IsBlockCount page_blocks }
        ensures ok { IfOk result (λ op. op ≡ started c page_blocks shape.now) }
        ensures err { IfErr result (λ e. e.0 ≡ c) }
    {
        let Ok(shape) = copied(alloc, shape) else {
            return Err((c, Memory));
        };
        let Ok((left_columns, right_columns)) = columns_of(alloc, shape.on.as_slice()) else {
            return Err((c, Memory));
        };
        let Ok(left) = Partitions::new(alloc, page_blocks) else {
            return Err((c, Memory));
        };
        let right = match Partitions::new(alloc, page_blocks) {
            Ok(right) => right,
            Err(_) => {
                left.discard();
                return Err((c, Memory));
            }
        };
        Ok(JoinOp {
            client: c,
            shape,
            left_columns,
            right_columns,
            left,
            right,
            left_rests: false,
            fed: Spare::new(alloc),
        })
    }
}

// The same shape again.
fn copied(alloc: Global, shape: &JoinShape) -> Result<JoinShape, Memory>
    ensures { IfOk result (λ copy. copy ≡ shape.now) }
{
    Ok(JoinShape {
        left: Listed::of(Vec::from_slice(alloc, shape.left.as_slice())?),
        right: Listed::of(Vec::from_slice(alloc, shape.right.as_slice())?),
        on: Listed::of(Vec::from_slice(alloc, shape.on.as_slice())?),
    })
}

// The columns that are to be equal, those of the left side and those of the right one.
pub(crate) fn columns_of(
    alloc: Global,
    on: &[(usize, usize)],
) -> Result<(Vec<usize>, Vec<usize>), row_codec::Memory>
    ensures left { IfOk result (λ columns. columns.0.items ≡ map (λ pair. pair.0) on.now) }
    ensures right { IfOk result (λ columns. columns.1.items ≡ map (λ pair. pair.1) on.now) }
{
    let mut left = Vec::new(alloc);
    let mut right = Vec::new(alloc);
    for pair in on {
        left.push(pair.0)?;
        right.push(pair.1)?;
    }
    Ok((left, right))
}
