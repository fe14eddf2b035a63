//! What it means that nothing is breached.
ghost use Rattle.mk_breaches.specs.Unbreached.{NoBreachIsTold};

/// Where no breach is told, nothing is breached: the jobs of a plan are as their records say, which
/// are there and not stale; what they read and change is declared; and no task asks for what a
/// build makes or changes.
pub fn nothing_is_breached()
    ensures { NoBreachIsTold }
{}
