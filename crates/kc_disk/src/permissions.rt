//! The permissions of a file that replaces another.

// The bits of a mode that can be set.
const MODE_BITS: u32 = 0o7777;

// The permission bits of the owner.
const OWNER_BITS: u32 = 0o700;

// The permission bits of the group.
const GROUP_BITS: u32 = 0o070;

/// How far the mode of a file applies to the file that replaces it.
#[derive(Clone, Copy)]
pub(crate) enum Trust {
    /// Both have the same owner and group.
    Same,
    /// The old owner is that of the new file or of the folder, but owner or group changes.
    Known,
    /// The old owner is somebody else, who may have created the file to gain access.
    Stranger,
}

/// Returns the mode of a file that replaces one of this mode. It gives nobody more permissions than the old mode gives.
///
/// With the same owner and group it is the old mode, but the group gets only what others have, too: the bits of the
/// group may be the mask of an access list, which the new file does not have. For another owner or group, the
/// set-user-id and set-group-id bits are cleared, and group and others get what all three classes had. For a stranger's
/// file only the owner has access.
pub(crate) fn mode_over(old: u32, trust: Trust) -> u32 {
    let mode = old & MODE_BITS;
    let owner = mode & OWNER_BITS;
    // The permissions that both group and others have, as bits of others; then only those that the owner has, too.
    let shared = mode & (mode >> 3) & 0o007;
    let all = shared & (owner >> 6);
    match trust {
        Trust::Same => mode & !GROUP_BITS | shared << 3,
        Trust::Known => owner | all << 3 | all,
        Trust::Stranger => owner,
    }
}
