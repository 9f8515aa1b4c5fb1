//! What broken variants of the steps lead to: no lawful state, whatever the ports know and the histories are. The
//! functions have no code.

ghost use Rattle.partial_epochs.specs.Variants.{UnsealingIsUnlawful, PublishingUnsealedIsUnlawful, ResettingPinnedIsUnlawful, ResettingCurrentIsUnlawful, PuttingIntoResetIsUnlawful};

/// A seal that is taken off a component of a finished epoch leaves no lawful state.
pub fn unsealing_is_unlawful()
    ensures { UnsealingIsUnlawful }
{}

/// An epoch that is published before all components of the one before are sealed leaves no lawful state.
pub fn publishing_unsealed_is_unlawful()
    ensures { PublishingUnsealedIsUnlawful }
{}

/// An arena that is reset while a port stands in it leaves no lawful state.
pub fn resetting_pinned_is_unlawful()
    ensures { ResettingPinnedIsUnlawful }
{}

/// A reset of the current arena, as by an owner that did not look, leaves no lawful state.
pub fn resetting_current_is_unlawful()
    ensures { ResettingCurrentIsUnlawful }
{}

/// A port that is put into an arena that holds no epoch, as by an owner that did not look again, leaves no lawful state.
pub fn putting_into_reset_is_unlawful()
    ensures { PuttingIntoResetIsUnlawful }
{}
