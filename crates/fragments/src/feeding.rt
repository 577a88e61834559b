//! Who takes the items of a queue, and who gives them.
ghost use Rattle.std.specs.Prelude.{◌≡◌, ◌++◌, ◌∷◌, ℕ, List, [], IfErr, IfOk, IfSome, MatchOption, OnOk};

/// Takes items, beside something that it works on.
pub trait Feeder<T, C, E> {
    // It may be given items.
    ghost ready: { Self → C → Type 0 };

    // It may be given this one.
    ghost admits: { Self → C → T → Type 0 };

    // It took these since it was another value, beside another one.
    ghost took: { Self → C → Self → C → List T → Type 0 };

    // What else it left since then.
    ghost went: { Self → C → Self → C → Type 0 };

    // How it may be stopped since then.
    ghost stops: { Self → C → C → E → Type 0 };

    /// Takes an item.
    fn take(&mut self, beside: &mut C, item: T) -> Result<(), E>
        requires ready { ready self.old beside.old }
        requires item { admits self.old beside.old item }
        ensures ok { OnOk result ((first : Self) (c : C) (items : List T) → took first c self.old beside.old items
            → took first c self.new beside.new (items ++ item ∷ [])) }
        ensures ready { ready self.new beside.new }
        ensures admits { (x : T) → admits self.old beside.old x → admits self.new beside.new x }
        ensures went { (first : Self) (c : C) → went first c self.old beside.old → went first c self.new beside.new }
        ensures cause { IfErr result (λ e. (first : Self) (c : C) → went first c self.old beside.old → stops first c beside.new e) };
}

/// Gives items.
pub trait Giver<T, Q> {
    // It may be asked.
    ghost ready: { Self → Type 0 };

    // It gave these since it was another value.
    ghost gave: { Self → Self → List T → Type 0 };

    // These are all that it had to give since then.
    ghost ended: { Self → Self → List T → Type 0 };

    // What it left since then, whatever it answered.
    ghost went: { Self → Self → Type 0 };

    // How it may be stopped since then.
    ghost stops: { Self → Self → Q → Type 0 };

    // An item that it may give.
    ghost gives: { Self → T → Type 0 };

    /// The next item.
    fn next(&mut self) -> Result<Option<T>, Q>
        requires ready { ready self.old }
        ensures some { IfOk result (λ o. MatchOption o ((first : Self) (items : List T) → gave first self.old items → ended first self.new items)
            (λ x. (first : Self) (items : List T) → gave first self.old items → gave first self.new (items ++ x ∷ []))) }
        ensures gives { IfOk result (λ o. IfSome o (λ x. gives self.old x)) }
        ensures still { (x : T) → gives self.new x → gives self.old x }
        ensures ready { ready self.new }
        ensures went { (first : Self) → went first self.old → went first self.new }
        ensures cause { IfErr result (λ q. (first : Self) → went first self.old → stops first self.new q) };
}
