//! Reading the text of an attribute path.
ghost use Rattle.std.specs.Prelude.{◌≡◌, ◌≢◌, ◌∷◌, [], codes, IfSome, IfNone};
ghost use Rattle.trace_types.specs.Paths.{SpellsPath, ArePathWords, IsThreadKey, thread_text, cpu_leaf_text, thread_leaf_text};
ghost use Rattle.trace_types.specs.declared.path.Path.{Path as AttributePath};
ghost use Rattle.trace_types.specs.declared.path.ThreadKey.{ThreadKey};
ghost use Rattle.trace_types.specs.declared.path.CpuLeaf.{CpuLeaf};
ghost use Rattle.trace_types.specs.declared.path.ThreadLeaf.{ThreadLeaf};

use crate::cut::cut_at;
use crate::limits::MAX_HOSTS;
use crate::number::read_number_below;
use crate::path::{CpuLeaf, Path, ThreadKey, ThreadLeaf};

/// Reads the text of a path. `None` comes exactly where it spells none: hosts are below 64, and tids
/// from 1 to 2^31 - 1.
pub fn read_path(text: &[u8]) -> Option<Path>
    ensures found { IfSome result (λ p. SpellsPath text.now p) }
    ensures none { IfNone result ((p : AttributePath) → ¬ (SpellsPath text.now p)) }
{
    let [b'h', rest @ ..] = text else {
        return None;
    };
    let (host, rest) = cut_at(rest, b'/')?;
    let (kind, rest) = cut_at(rest, b'/')?;
    let (key, leaf) = cut_at(rest, b'/')?;
    read_words(host, kind, key, leaf)
}

// Reads the words between the slashes.
fn read_words(host: &[u8], kind: &[u8], key: &[u8], leaf: &[u8]) -> Option<Path>
    ensures found { IfSome result (λ p. ArePathWords (host.now ∷ kind.now ∷ key.now ∷ leaf.now ∷ []) p) }
    ensures none { IfNone result ((p : AttributePath) → ¬ (ArePathWords (host.now ∷ kind.now ∷ key.now ∷ leaf.now ∷ []) p)) }
{
    match kind {
        b"Cpu" => read_cpu_path(host, key, leaf),
        b"Thread" => read_thread_path(host, key, leaf),
        _ => None,
    }
}

fn read_cpu_path(host: &[u8], cpu: &[u8], leaf: &[u8]) -> Option<Path>
    ensures found { IfSome result (λ p. ArePathWords (host.now ∷ codes "Cpu" ∷ cpu.now ∷ leaf.now ∷ []) p) }
    ensures none { IfNone result ((p : AttributePath) → ¬ (ArePathWords (host.now ∷ codes "Cpu" ∷ cpu.now ∷ leaf.now ∷ []) p)) }
{
    let host = read_number_below(host, MAX_HOSTS as u64)? as u32;
    let cpu = read_number_below(cpu, 1 << 32)? as u32;
    let leaf = read_cpu_leaf(leaf)?;
    Some(Path::Cpu { host, cpu, leaf })
}

fn read_thread_path(host: &[u8], thread: &[u8], leaf: &[u8]) -> Option<Path>
    ensures found { IfSome result (λ p. ArePathWords (host.now ∷ codes "Thread" ∷ thread.now ∷ leaf.now ∷ []) p) }
    ensures none { IfNone result ((p : AttributePath) → ¬ (ArePathWords (host.now ∷ codes "Thread" ∷ thread.now ∷ leaf.now ∷ []) p)) }
{
    let host = read_number_below(host, MAX_HOSTS as u64)? as u32;
    let thread = read_thread_key(thread)?;
    let leaf = read_thread_leaf(leaf)?;
    Some(Path::Thread { host, thread, leaf })
}

fn read_thread_key(word: &[u8]) -> Option<ThreadKey>
    ensures found { IfSome result (λ k. (word.now ≡ thread_text k) × IsThreadKey k) }
    ensures none { IfNone result ((k : ThreadKey) → IsThreadKey k → word.now ≢ thread_text k) }
{
    if let [b'0', b'_', cpu @ ..] = word {
        return Some(ThreadKey::Idle(read_number_below(cpu, 1 << 32)? as u32));
    }
    let tid = read_number_below(word, 1 << 31)? as u32;
    if tid == 0 {
        return None;
    }
    Some(ThreadKey::Tid(tid))
}

fn read_cpu_leaf(word: &[u8]) -> Option<CpuLeaf>
    ensures found { IfSome result (λ l. word.now ≡ cpu_leaf_text l) }
    ensures none { IfNone result ((l : CpuLeaf) → word.now ≢ cpu_leaf_text l) }
{
    match word {
        b"Thread" => Some(CpuLeaf::Thread),
        b"Irq" => Some(CpuLeaf::Irq),
        b"Softirq" => Some(CpuLeaf::Softirq),
        _ => None,
    }
}

fn read_thread_leaf(word: &[u8]) -> Option<ThreadLeaf>
    ensures found { IfSome result (λ l. word.now ≡ thread_leaf_text l) }
    ensures none { IfNone result ((l : ThreadLeaf) → word.now ≢ thread_leaf_text l) }
{
    match word {
        b"Status" => Some(ThreadLeaf::Status),
        b"Name" => Some(ThreadLeaf::Name),
        b"Cpu" => Some(ThreadLeaf::Cpu),
        b"Prio" => Some(ThreadLeaf::Prio),
        b"Parent" => Some(ThreadLeaf::Parent),
        b"Call" => Some(ThreadLeaf::Call),
        _ => None,
    }
}
