//! Which nodes have a meta file (make(1), "META MODE").
ghost use Rattle.std.specs.Prelude.{◌≡◌, ◌<◌, length};
ghost use Rattle.mk_plan.specs.Metas as metas;
ghost use Rattle.mk_plan.specs.Plans.{node_at};

use crate::plan::Plan;
use mk_graph::{Attr, Mode};

/// Whether a node is in meta mode: `.MAKE.MODE` has `meta` and a true `curdirOk`, and the node is
/// not marked `.NOMETA`; a phony node only where it is marked `.META`.
pub fn is_meta(plan: &Plan, mode: &Mode, n: u32) -> bool
    requires { n < length plan.now }
    ensures { result ≡ metas.is_meta mode.now (node_at plan.now n).marks }
{
    mode.meta
        && mode.curdir_ok
        && !plan.has(n, Attr::NoMeta)
        && (!plan.has(n, Attr::Phony) || plan.has(n, Attr::Meta))
}
