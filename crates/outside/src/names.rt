// Inputs and outputs by name.

ghost use Rattle.std.specs.Prelude.{◌≡◌, ◌&&◌, ℕ, Bool, true, is_err, List, Option, None, IfOk, OnOk, OnErr};
ghost use Rattle.outside.specs.Counts.{NoneFell, Rose};
ghost use Rattle.outside.specs.Told.{GivesBytes};
ghost use Rattle.outside.specs.Names.{AllStay, Written, NowWritten, TakesBytes, StartsEmpty, OthersStay, StaysCreated, TakesFaults, fresh, CountsEnd};

use crate::stream::{Failed, Sink, Source};

/// Inputs by name. One counter of faults may serve several names, whose counts then rise together.
pub trait Inputs {
    /// A source has no `Drop` here: one that was opened is closed, so that its faults are counted.
    type Src: Source + Send;

    // The bytes that stand under a name, where they are told.
    ghost bytes_at: { Self → List ℕ → Option (List ℕ) };

    // The faults of a name so far.
    ghost faults_at: { Self → List ℕ → ℕ };

    /// A source of the bytes that stand under `name`. A name that is not there is a fault.
    fn open(&mut self, name: &str) -> Result<Self::Src, Failed>
        ensures gives { IfOk result (λ src. GivesBytes (bytes_at self.old name.now) (Self.Src.remaining src)) }
        ensures fresh { IfOk result (λ src. Self.Src.faults src ≡ 0) }
        ensures ok { OnOk result (AllStay (faults_at self.old) (faults_at self.new)) }
        ensures kept { AllStay (bytes_at self.old) (bytes_at self.new) }
        ensures never_falls { NoneFell (faults_at self.old) (faults_at self.new) }
        ensures failed { OnErr result (Rose (faults_at self.old name.now) (faults_at self.new name.now)) };

    /// Takes back a source that was opened under `name`, with its count of faults.
    fn close(&mut self, name: &str, src: Self::Src)
        ensures takes { TakesFaults (Self.Src.faults src) (faults_at self.old name.now) (faults_at self.new name.now) }
        ensures quiet { Self.Src.faults src ≡ 0 → AllStay (faults_at self.old) (faults_at self.new) }
        ensures kept { AllStay (bytes_at self.old) (bytes_at self.new) }
        ensures never_falls { NoneFell (faults_at self.old) (faults_at self.new) };
}

/// Outputs by name. One counter of faults may serve several names, whose counts then rise together.
pub trait Outputs {
    /// A sink has no `Drop` here: one that was created is given back by `done`.
    type Snk: Sink + Send;

    // What stands under a name, where outputs are told; a name that was never created has nothing.
    ghost written: { Self → List ℕ → Option Written };

    // Whether a name was created.
    ghost is_created: { Self → List ℕ → Bool };

    // The faults of a name so far.
    ghost faults_at: { Self → List ℕ → ℕ };

    // The calls of `done` for a name that failed though a whole answer was given back. They never fall.
    ghost refused_ends: { Self → List ℕ → ℕ };

    /// An empty sink for `name`, which has no bytes from then on.
    fn create(&mut self, name: &str) -> Result<Self::Snk, Failed>
        ensures ok { OnOk result (NowWritten (written self.old name.now) (written self.new name.now) fresh) }
        ensures created { OnOk result (is_created self.new name.now ≡ true) }
        ensures empty { IfOk result (λ snk. StartsEmpty (written self.old name.now) (Self.Snk.contents snk)) }
        ensures fresh { IfOk result (λ snk. Self.Snk.faults snk ≡ 0) }
        ensures unbroken { IfOk result (λ snk. Self.Snk.at_failure snk ≡ None) }
        ensures quiet { OnOk result (AllStay (faults_at self.old) (faults_at self.new)) }

        ensures others { OthersStay name.now (written self.old) (written self.new) }
        ensures stays { StaysCreated (is_created self.old) (is_created self.new) }
        ensures err { OnErr result (written self.new name.now ≡ written self.old name.now) }
        ensures ends { AllStay (refused_ends self.old) (refused_ends self.new) }
        ensures never_falls { NoneFell (faults_at self.old) (faults_at self.new) }
        ensures failed { OnErr result (Rose (faults_at self.old name.now) (faults_at self.new name.now)) };

    /// Takes back the sink of a name that was created: the name has the bytes of the sink.
    ///
    /// `whole` says that they are a complete answer; after [`Failed`] they do not count as one.
    fn done(&mut self, name: &str, snk: Self::Snk, whole: bool) -> Result<(), Failed>
        requires { is_created self.old name.now ≡ true }
        ensures bytes { TakesBytes (written self.old name.now) (written self.new name.now) (Self.Snk.contents snk) whole result }
        ensures ends { CountsEnd name.now (whole && is_err result) (refused_ends self.old) (refused_ends self.new) }
        ensures takes { TakesFaults (Self.Snk.faults snk) (faults_at self.old name.now) (faults_at self.new name.now) }
        ensures quiet { OnOk result (Self.Snk.faults snk ≡ 0 → AllStay (faults_at self.old) (faults_at self.new)) }

        ensures others { OthersStay name.now (written self.old) (written self.new) }
        ensures stays { StaysCreated (is_created self.old) (is_created self.new) }
        ensures never_falls { NoneFell (faults_at self.old) (faults_at self.new) }
        ensures failed { OnErr result (Rose (faults_at self.old name.now) (faults_at self.new name.now)) };
}
