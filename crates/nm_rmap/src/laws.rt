//! Worked examples of the definitions alone. Each function does nothing, and its contract is the law.

ghost use Rattle.nm_rmap.specs.Examples.{MappersAreInOrder, TwoProcesses, MappersAreCarried, NoneIsLeft};

/// Two page numbers of one process and one of another that map a frame are in order, belong to two processes, and can
/// be carried over to another frame.
pub fn mappers_are_counted_and_carried()
    ensures ordered { MappersAreInOrder }
    ensures counted { TwoProcesses }
    ensures carried { MappersAreCarried }
    ensures left { NoneIsLeft }
{}
