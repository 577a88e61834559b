//! With what a session's pool opened, and at which turn lock it sits, as names in a type.
ghost use Rattle.std.specs.Prelude.{◌≡◌};

use session_calls::Opened;
use std::marker::PhantomData;

/// Both names, as a field without bytes. Beside a seat a ghost field can speak of a name only where the type of another
/// field does.
#[derive(Drop)]
pub struct Named<T: Opened, N: Opened> {
    pub(crate) names: PhantomData<(T, N)>,
    ghost opening: { T.opening ≡ T.opening },
    ghost table: { N.table ≡ N.table },
}
