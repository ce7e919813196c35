// The versions of the study file, in one table.
ghost use Rattle.std.specs.Prelude.{◌≤◌, ◌≡◌, ◌<◌};
ghost use Rattle.study.specs.Versions.{form_of, section_size};

// What a version fixes of the format: the bytes of the header, the bytes of a link, and how many sections there are.
#[derive(Clone, Copy)]
pub struct Form {
    pub header: u64,
    pub link: u64,
    pub sections: usize,
}

// The highest version that there is.
pub const LATEST: u64 = 4;

pub fn form_of(version: u16) -> Form
    requires { (1 ≤ version) × (version ≤ 4) }
    ensures { result ≡ form_of version }
{
    if version == 1 {
        return Form {
            header: 32,
            link: 10,
            sections: 3,
        };
    }
    if version == 2 {
        return Form {
            header: 40,
            link: 10,
            sections: 4,
        };
    }
    if version == 3 {
        return Form {
            header: 40,
            link: 12,
            sections: 4,
        };
    }
    Form {
        header: 56,
        link: 12,
        sections: 6,
    }
}

// The length of a section in a version, of a study of n nodes, m links and p destinations.
pub fn section_size(version: u16, n: u64, m: u64, p: u64, section: usize) -> u64
    requires { (1 ≤ version) × (version ≤ 4) × (n < 65536) × (m < 65536) × (p < 65536) }
    ensures { result ≡ section_size version n m p section }
{
    let form = form_of(version);
    if form.sections <= section {
        return 0;
    }
    if section == 0 {
        return form.link * m;
    }
    if section == 1 {
        return 2 * p;
    }
    if section == 3 {
        return n;
    }
    if section == 5 {
        return m;
    }
    2 * p * n
}
