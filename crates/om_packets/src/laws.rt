//! What holds of the definitions alone.

ghost use Rattle.om_packets.specs.Reading.{ReadsBack};

/// Proves that packets that are written one after another, with any bytes between them but 3 and `$`, are read back as they
/// were written, and the reader stands between packets then.
pub fn reads_back()
    ensures { ReadsBack }
{}
