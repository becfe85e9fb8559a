//! Laws of records. Each law is the contract of a function that does nothing.
ghost use Rattle.log_record.specs.ReadRecords.{IsPrefixFree, SaysOneChange};
ghost use Rattle.log_record.specs.Sizes.{PlacedRecordsFit};

/// If two records are at the front of the same bytes, then they are records of one change and of one
/// epoch, and the same bytes follow both. So no record is the beginning of another record, also of
/// another version.
pub fn no_record_begins_another()
    ensures { IsPrefixFree }
{}

/// Two changes with the same record are the same change, of the same epoch.
pub fn a_record_says_one_change()
    ensures { SaysOneChange }
{}

/// The record of a change whose content is at places has at most 16,777,216 bytes, as many as a
/// block of a stream.
pub fn a_placed_record_fits_a_block()
    ensures { PlacedRecordsFit }
{}
