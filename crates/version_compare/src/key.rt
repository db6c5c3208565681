// The key of a version.
ghost use Rattle.std.specs.Prelude.{◌≡◌};
ghost use Rattle.version_order.specs.Key.{pre_kind, kind_of, pre_number, dev_number, key_of};

use chars::spelling::PreKind;
use decimal::parse::LARGEST;
use version_order::key::Key;
use version_parts::fields::{Pre, Version};

fn pre_kind(kind: PreKind) -> u64
    ensures { result ≡ pre_kind kind }
{
    match kind {
        PreKind::Alpha => 2,
        PreKind::Beta => 3,
        PreKind::Rc => 4,
    }
}

// 1 dev alone, 2 alpha, 3 beta, 4 rc, 5 none, 6 post without pre.
pub fn kind_of(pre: Option<Pre>, post: Option<u64>, dev: Option<u64>) -> u64
    ensures { result ≡ kind_of pre post dev }
{
    if let Some((kind, _)) = pre {
        return pre_kind(kind);
    }
    if let Some(_) = post {
        return 6;
    }
    if let Some(_) = dev {
        return 1;
    }
    5
}

fn pre_number(pre: Option<Pre>) -> u64
    ensures { result ≡ pre_number pre }
{
    match pre {
        None => 0,
        Some((_, n)) => n,
    }
}

// An absent dev is 0 where nothing else is there, and otherwise stands above every dev.
fn dev_number(pre: Option<Pre>, post: Option<u64>, dev: Option<u64>) -> u64
    ensures { result ≡ dev_number pre post dev }
{
    if let Some(n) = dev {
        return n;
    }
    if let Some((_, _)) = pre {
        return LARGEST;
    }
    if let Some(_) = post {
        return LARGEST;
    }
    0
}

pub fn key_from(pre: Option<Pre>, post: Option<u64>, dev: Option<u64>) -> Key
    ensures { result ≡ key_of pre post dev }
{
    Key {
        kind: kind_of(pre, post, dev),
        pre: pre_number(pre),
        post,
        dev: dev_number(pre, post, dev),
    }
}

pub fn key_of(version: Version) -> Key
    ensures { result ≡ key_of version.pre version.post version.dev }
{
    key_from(version.pre, version.post, version.dev)
}
