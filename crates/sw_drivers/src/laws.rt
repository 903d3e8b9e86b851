//! What holds of the definitions.

ghost use Rattle.std.specs.Prelude.{◌≡◌, ◌<◌, ℕ};
ghost use Rattle.sw_drivers.specs.declared.frame.Request.{Request as Asked};
ghost use Rattle.sw_drivers.specs.declared.frame.Wrapping.TheVariants.{Tcp, Rtu};
ghost use Rattle.sw_drivers.specs.Frames.{IsInRange, frame};

/// A law: no frame asks two units, or for two things; nor has it two numbers, over TCP.
pub fn no_frame_reads_two_ways()
    ensures tcp { (number other unit second : ℕ) (one two : Asked) → number < 65536 → other < 65536
        → IsInRange one → IsInRange two → frame Tcp number unit one ≡ frame Tcp other second two
        → (number ≡ other) × (unit ≡ second) × (one ≡ two) }
    ensures rtu { (number other unit second : ℕ) (one two : Asked) → IsInRange one → IsInRange two
        → frame Rtu number unit one ≡ frame Rtu other second two → (unit ≡ second) × (one ≡ two) }
{}
