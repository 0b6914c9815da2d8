// Studies of one bus at 10 kV and 100 MVA, where one ohm is one per unit.
ghost use Rattle.std.specs.Prelude.{IfOk};
ghost use Rattle.study_model.specs.Lawful.{IsLawful};
ghost use Rattle.study_model.specs.declared.words.Sequence.TheVariants.{Positive};
ghost use Rattle.sequence_network.specs.Built.{IsNetworkOf};

use net_branch::Network;
use sequence_network::build_sequence;
use std::alloc::Global;
use std::test::Fail;
use study_model::{Sequence, Study};

/// A source of one ohm with a tolerance of a tenth: at order h the impedance is h ohms, from 0.9·h to 1.1·h within the tolerance.
pub const TENTH: &str =
    "study = { version = 1, mva = 100 }\nbus = [{ name = \"B1\", kv = 10 }]\nsource = [{ name = \"S1\", bus = \"B1\", r = 0, x = 1 }]\nscan = [{ name = \"s1\", bus = \"B1\", from = 1, to = 10, threshold = \"10.5\", finest = 9 }]\ntolerance = [{ element = \"S1\", permille = 100 }]\n";

/// The same below 20 ohms.
pub const WIDE: &str =
    "study = { version = 1, mva = 100 }\nbus = [{ name = \"B1\", kv = 10 }]\nsource = [{ name = \"S1\", bus = \"B1\", r = 0, x = 1 }]\nscan = [{ name = \"s1\", bus = \"B1\", from = 1, to = 10, threshold = 20, finest = \"0.001\" }]\ntolerance = [{ element = \"S1\", permille = 100 }]\n";

/// The same with half the tolerance, which goes up to 10.5 ohms.
pub const TWENTIETH: &str =
    "study = { version = 1, mva = 100 }\nbus = [{ name = \"B1\", kv = 10 }]\nsource = [{ name = \"S1\", bus = \"B1\", r = 0, x = 1 }]\nscan = [{ name = \"s1\", bus = \"B1\", from = 1, to = 10, threshold = \"10.6\", finest = 9 }]\ntolerance = [{ element = \"S1\", permille = 50 }]\n";

/// A source of two ohms, scanned below 30 ohms.
pub const TWO_OHMS: &str =
    "study = { version = 1, mva = 100 }\nbus = [{ name = \"B1\", kv = 10 }]\nsource = [{ name = \"S1\", bus = \"B1\", r = 0, x = 2 }]\nscan = [{ name = \"s1\", bus = \"B1\", from = 1, to = 10, threshold = 30, finest = \"0.001\" }]\n";

/// One of one ohm, and a bank of 4 MVAr.
pub const WITH_A_BANK: &str =
    "study = { version = 1, mva = 100 }\nbus = [{ name = \"B1\", kv = 10 }]\nsource = [{ name = \"S1\", bus = \"B1\", r = 0, x = 1 }]\nbank = [{ name = \"K1\", bus = \"B1\", q = 4 }]\n";

/// One bus more.
pub const TWO_BUSES: &str =
    "study = { version = 1, mva = 100 }\nbus = [{ name = \"B1\", kv = 10 }, { name = \"B2\", kv = 10 }]\nsource = [{ name = \"S1\", bus = \"B1\", r = 0, x = 1 }]\n";

/// A source with skin coefficients, a bank, and a filter tuned to the order 5.
pub const PLANT: &str =
    "study = { version = 1, mva = 100 }\nbus = [{ name = \"B1\", kv = 10 }]\nsource = [{ name = \"S1\", bus = \"B1\", r = \"0.5\", x = 1, skin_k = \"0.25\", skin_m = 10 }]\nbank = [{ name = \"K1\", bus = \"B1\", q = 4 }]\nfilter = [{ name = \"F1\", bus = \"B1\", kind = \"single\", q = 4, order = 5, quality = 50 }]\n";

/// The positive network of a study.
pub fn positive(alloc: Global, study: &Study) -> Result<Network, Fail>
    requires { IsLawful study.now }
    ensures { IfOk result (IsNetworkOf study.now Positive) }
{
    match build_sequence(alloc, study, Sequence::Positive) {
        Ok(network) => Ok(network),
        Err(_) => Err("no network".into()),
    }
}
