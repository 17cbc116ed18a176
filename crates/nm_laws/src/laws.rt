//! Laws of the definitions alone. Each function does nothing, and its contract is the law.

ghost use Rattle.nm_laws.specs.Laws.{DecidingKeepsMemory, FreeingKeepsMemory, BatchKeepsMemory, RunKeepsMemory, RunsKeepMemory, ReadingKeepsMemory, WritingIsExact, PolicyKeepsMemory, LooksSuffice, LooksAreBounded, SoundIsAudited, PlanIsOneByOne, AccessIsSound, RunIsSound, BatchIsSound, NewIsSound, SpawnIsSound, MapIsSound, AttachIsSound, PinIsSound, UnpinIsSound, PolicyIsSound, UnmapIsSound, ExitIsSound};
ghost use Rattle.nm_laws.specs.Interleavings.{EverySoundStateIsRead, EveryRunCanEnd, EveryOrderIsTheRun, EveryBufferIsInOneHand, EveryEntryOfAMovingPageIsHeld, HeldIsExact};
ghost use Rattle.nm_laws.specs.Phases.{TouchesComeFirst, MovesComeLater};
ghost use Rattle.nm_model.specs.examples.BeforeCopy.{PagesAreReadyFirst};

/// No move changes a byte that a process reads: neither a single move nor a batch. Nor does a read or a policy. Where
/// accesses are made while pages move, each byte is that of the last write made there, or else the same as before.
pub fn mem_stays()
    ensures deciding { DecidingKeepsMemory }
    ensures freeing { FreeingKeepsMemory }
    ensures batches { BatchKeepsMemory }
    ensures runs { RunKeepsMemory }
    ensures run { RunsKeepMemory }
    ensures reading { ReadingKeepsMemory }
    ensures policies { PolicyKeepsMemory }
{}

/// A write gives its bytes to everyone who has the page, and changes no other byte of any process.
pub fn writes_are_exact()
    ensures { WritingIsExact }
{}

/// A look at a page number of a process, which counts the processes that see the page, is enough to decide what to do
/// with a request. The count is at most the number of processes that can be alive.
pub fn looks_suffice()
    ensures looks { LooksSuffice }
    ensures bounded { LooksAreBounded }
{}

/// Classing the requests of a run at its start and then deciding them gives the same as deciding one after another, if
/// all of them move pages that other processes see, as those by page do, or none does.
pub fn plan_is_one_by_one()
    ensures { PlanIsOneByOne }
{}

/// An audit of a sound machine finds each frame in exactly one place.
pub fn sound_is_audited()
    ensures { SoundIsAudited }
{}

/// Reads and writes, runs with their accesses in flight, and batches keep a machine sound.
pub fn soundness_stays()
    ensures accesses { AccessIsSound }
    ensures runs { RunIsSound }
    ensures batches { BatchIsSound }
{}

/// The new machine is sound, and calls that are not refused keep a machine sound.
pub fn calls_keep_soundness()
    ensures new { NewIsSound }
    ensures spawn { SpawnIsSound }
    ensures map { MapIsSound }
    ensures attach { AttachIsSound }
    ensures pin { PinIsSound }
    ensures unpin { UnpinIsSound }
    ensures policies { PolicyIsSound }
    ensures unmap { UnmapIsSound }
    ensures exit { ExitIsSound }
{}

/// Whatever order a run's events take between its beginning and its end, the run is one request after another, the
/// accesses one after another, and then the frames left become free. Each buffer is in one place throughout, and the
/// entries of pages that move are held until the run ends, whoever maps them (Documentation/mm/page_migration.rst).
pub fn interleavings()
    ensures states { EverySoundStateIsRead }
    ensures ends { EveryRunCanEnd }
    ensures orders { EveryOrderIsTheRun }
    ensures hands { EveryBufferIsInOneHand }
    ensures entries { EveryEntryOfAMovingPageIsHeld }
    ensures held { HeldIsExact }
{}

/// Accesses in flight may be made in two steps: first everything that they come to is touched before a page moves, in
/// their order, and then the bytes of pages that do not move are read and written. That is the same as making them one
/// after another while the pages of the run move.
pub fn touches_come_first()
    ensures first { TouchesComeFirst }
    ensures later { MovesComeLater }
    ensures ready { PagesAreReadyFirst }
{}
