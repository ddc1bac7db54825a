//! Which stored rows tables may start from. The function does nothing, and its contract is the law.

ghost use Rattle.rinda_tables.specs.Starting.{SoundMayBegin};

/// A start that stands for a sound space meets what `Tables::start` asks of it.
pub fn sound_start_may_begin()
    ensures { SoundMayBegin }
{}
