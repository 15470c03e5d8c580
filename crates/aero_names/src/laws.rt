//! That the limits on threads and names are met by new names alone.
ghost use Rattle.aero_names.specs.Laws.{TooManyThreadsMeans, TooManyNamesMeans};

/// An event before which none is ill-formed has the fault `TooManyThreads` exactly where its actor or
/// its target is a thread that is new, and as many are numbered before it as the limit allows.
pub fn too_many_threads_are_new_ones()
    ensures { TooManyThreadsMeans }
{}

/// It has the fault `TooManyNames` exactly where its target is a variable or a lock that is new, and
/// as many are numbered before it as the limit allows, and it has not the fault `TooManyThreads`.
pub fn too_many_names_are_new_ones()
    ensures { TooManyNamesMeans }
{}
