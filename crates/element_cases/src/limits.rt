// Networks at their limits of 400 nodes and 2,400 branches.
use crate::expected::study_with;
use net_branch::AddFault;
use sequence_network::build_sequence;
use std::alloc::Global;
use std::test::Fail;
use study_model::Sequence;

/// A section, so many entries of it, and the keys that each has beside its name.
type Entries = (&'static str, u32, &'static str);

/// Their names tell the place of the entries, too.
fn push_entries(
    alloc: Global,
    text: &mut String,
    place: usize,
    (section, count, keys): Entries,
) -> Result<(), Fail> {
    for i in 0..count {
        let entry = format!(in alloc; "[[{section}]]\nname = \"{section}{place}.{i}\"\n{keys}\n")?;
        text.push_str(entry.as_str())?;
    }
    Ok(())
}

/// The nodes and branches of the network of these entries, none where it passes the limits.
fn size(
    alloc: Global,
    sequence: Sequence,
    sections: &[Entries],
) -> Result<Option<(u32, usize)>, Fail> {
    let mut text = String::new(alloc);
    for (place, entries) in sections.iter().enumerate() {
        push_entries(alloc, &mut text, place, *entries)?;
    }
    let study = study_with(alloc, text.as_str())?;
    match build_sequence(alloc, &study, sequence) {
        Ok(network) => Ok(Some((network.nodes, network.branches.len()))),
        Err(AddFault::TooMany) => Ok(None),
        Err(AddFault::NoMemory) => Err("no memory".into()),
    }
}

const LONG: &str = "from = \"B1\"\nto = \"B2\"\nr = 1\nx = 1\nsections = 64";

const LAST: &str = "from = \"B1\"\nto = \"B2\"\nr = 1\nx = 1\nsections = 21";

const SINGLE: &str = "bus = \"B1\"\nkind = \"single\"\nq = 4\norder = 5\nquality = 50";

const HIGHPASS: &str = "bus = \"B1\"\nkind = \"highpass\"\nq = 4\norder = 5\nquality = 50";

const NEUTRALS: &str =
    "from = \"B1\"\nto = \"B2\"\nmva = 10\nr = 0\nx = 10\nfrom_conn = \"grounded\"\nto_conn = \"grounded\"\nfrom_rn = 1\nto_xn = 2";

const SOURCE: &str = "bus = \"B1\"\nr = 0\nx = 1";

const CIGRE: &str = "bus = \"B1\"\nmodel = \"cigre\"\np = 4\nq = 2";

const BANK: &str = "bus = \"B1\"\nq = 4";

const TWO_SECTIONS: &str = "from = \"B1\"\nto = \"B2\"\nr = 1\nx = 1\nb = 1\nsections = 2";

const THREE_SECTIONS: &str = "from = \"B1\"\nto = \"B2\"\nr = 1\nx = 1\nb = 1\nsections = 3";

const LEAKAGE: &str = "from = \"B1\"\nto = \"B2\"\nmva = 10\nr = 0\nx = 10";

/// 200 entries of each section, the lines with two sections of three branches and the loads with two branches.
const FULL_OF_BRANCHES: [Entries; 6] = [
    ("source", 200, SOURCE),
    ("line", 200, TWO_SECTIONS),
    ("transformer", 200, LEAKAGE),
    ("load", 200, CIGRE),
    ("bank", 200, BANK),
    ("filter", 200, SINGLE),
];

/// The same with three sections of one line.
const ONE_LONGER: [Entries; 7] = [
    ("source", 200, SOURCE),
    ("line", 199, TWO_SECTIONS),
    ("line", 1, THREE_SECTIONS),
    ("transformer", 200, LEAKAGE),
    ("load", 200, CIGRE),
    ("bank", 200, BANK),
    ("filter", 200, SINGLE),
];

/// Sections, and the nodes and branches that they make of one of the two networks.
type Row<'a> = (&'a str, &'a [Entries], Sequence, Option<(u32, usize)>);

// Six lines of 64 sections and one of 21 fill the nodes: what has no inner node still fits. 199 transformers with two neutrals fill the nodes of
// the zero network, and each adds one branch to the positive one. The full table of branches is open in the zero network.
#[test]
fn a_network_has_at_most_400_nodes_and_2400_branches(rt: HostRuntime) -> Result<(), Fail> {
    let rows: [Row<'_>; 9] = [
        (
            "full of nodes",
            &[("line", 6, LONG), ("line", 1, LAST)],
            Sequence::Positive,
            Some((400, 405)),
        ),
        (
            "one branch more",
            &[("line", 6, LONG), ("line", 1, LAST), ("filter", 1, SINGLE)],
            Sequence::Positive,
            Some((400, 406)),
        ),
        (
            "one node more",
            &[
                ("line", 6, LONG),
                ("line", 1, LAST),
                ("filter", 1, HIGHPASS),
            ],
            Sequence::Positive,
            None,
        ),
        (
            "full of neutrals",
            &[("transformer", 199, NEUTRALS)],
            Sequence::Zero,
            Some((400, 597)),
        ),
        (
            "a neutral too many",
            &[("transformer", 200, NEUTRALS)],
            Sequence::Zero,
            None,
        ),
        (
            "no neutrals in the positive network",
            &[("transformer", 200, NEUTRALS)],
            Sequence::Positive,
            Some((2, 200)),
        ),
        (
            "full of branches",
            &FULL_OF_BRANCHES,
            Sequence::Positive,
            Some((202, 2400)),
        ),
        ("a section more", &ONE_LONGER, Sequence::Positive, None),
        (
            "open in the zero network",
            &ONE_LONGER,
            Sequence::Zero,
            Some((2, 0)),
        ),
    ];
    for (label, sections, sequence, wanted) in rows {
        let found = size(rt.alloc(), sequence, sections)?;
        assert_eq!(rt; found, wanted, "{label}");
    }
    Ok(())
}
