//! What is hashed for labels, keys and check values. Nothing is said of the hash.

ghost use Rattle.std.specs.Prelude.{◌≡◌, take};
ghost use Rattle.sha2.specs.Sha256.{sha256};
ghost use Rattle.sd_base.specs.Types.{Key};
ghost use Rattle.sd_law_broadcast.specs.Pads.{KeyName, key_bytes};
ghost use Rattle.sd_law_keys.specs.Inputs.{Hashed, IsSized, hashed_as, input_of, named_by, hashed_size};

/// A label, a key or a check value is the SHA-256 of its input, a check value the first 16 bytes of it. Each key by
/// which a text or a payload lies under a keystream is among them.
pub fn inputs_are_hashed()
    ensures hashed { (name : Hashed) → named_by name ≡ take (hashed_size name) (sha256 (input_of name)) }
    ensures keys { (master : Key) (name : KeyName) → key_bytes master name ≡ named_by (hashed_as master name) }
{}

/// Two labels, keys or check values with two names have two inputs, whether of one master or of two: another kind,
/// another master, label or key, or another number makes another input. So no check value is of the input of a key.
#[tactic(auto, using(crate::proofs::Apart::inputs_differ))]
pub fn inputs_differ()
    ensures { (a b : Hashed) → IsSized a → IsSized b → input_of a ≡ input_of b → a ≡ b }
{}
