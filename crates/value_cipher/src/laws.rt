//! Laws on the definitions that the contracts cite. The functions do nothing: their contracts are
//! the laws.

ghost use Rattle.value_cipher.specs.Cipher.{UnsealsWhatWasSealed, SealsWhatWasUnsealed, SealedCellsFit, SealedCellsKeepNonces, SealedCellsUnseal, EachNonceIsOneCell, NoncesAreWithin};
ghost use Rattle.value_cipher.specs.Vectors.{QuarterRoundVector, BlockVector, ZeroPad};

/// Unsealing undoes sealing, and sealing undoes unsealing.
pub fn seal_and_unseal()
    ensures unseal { UnsealsWhatWasSealed }
    ensures seal { SealsWhatWasUnsealed }
{}

/// A sealed cell unseals to its value, keeps its nonce, and has 64 bits where its value has.
pub fn sealed_cells()
    ensures value { SealedCellsUnseal }
    ensures nonce { SealedCellsKeepNonces }
    ensures masked { SealedCellsFit }
{}

/// No two cells have one nonce, and the nonces of all sessions stand below the next free one.
pub fn nonces()
    ensures distinct { EachNonceIsOneCell }
    ensures within { NoncesAreWithin }
{}

/// What RFC 8439 prints for its own examples.
pub fn vectors()
    ensures quarter_round { QuarterRoundVector }
    ensures block { BlockVector }
    ensures zero_pad { ZeroPad }
{}
