// What lies past the size of a file.
ghost use Rattle.ct_laws.specs.Tails.{ReadsZerosPastItsSize};

/// On a sound image a file that gets longer inside its partition, by its size alone, is lengthened with zeros.
pub fn a_longer_file_reads_zeros()
    ensures { ReadsZerosPastItsSize }
{}
