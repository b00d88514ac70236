// The text of the sheet's lines, put onto a lent page.
ghost use Rattle.std.specs.Prelude.{◌≡◌, true, ℕ, ◌+◌, ◌*◌, ◌<◌, ◌≤◌, get_or};
ghost use Rattle.lists.specs.Entries.{each, from};
ghost use Rattle.rule.specs.Level.{depth as depth_of};
ghost use Rattle.card.specs.Session.{card_of};
ghost use Rattle.card.specs.Held.{HasCard};
ghost use Rattle.session.specs.Good.{Good};
ghost use Rattle.text.specs.Inner.Put.{Put, Puts};
ghost use Rattle.sheet_text.specs.Lines.{refused_line, values, net_line, card_text, vector_text};

use card::Session;
use rule::Refusal;
use text::Page;
use word::PcSet;

// The line of a refusal.
pub fn put_refused(out: &mut [u8; 20480], why: Refusal) -> usize
    ensures { Put (refused_line why) out.old 0 out.new result }
{
    let mut page = Page::new(out);
    page.put_named(b"refused ", usize::from(u8::from(why)), b'\n');
    page.at
}

// The first line: depth and length of the step list.
pub fn put_card(out: &mut [u8; 20480], s: &Session, depth: usize) -> usize
    requires has_card { HasCard s.now }
    requires depth_value { depth ≡ depth_of (card_of s.now) }
    ensures { Put (card_text s.now) out.old 0 out.new result }
{
    let mut page = Page::new(out);
    page.put_named(b"depth ", depth, b' ');
    page.put_named(b"steps ", card::steps_of(s), b'\n');
    page.at
}

// A net's values at times 0 to depth, a digit each.
fn put_values(page: &mut Page, word: u64, depth: usize)
    requires { (depth ≤ 63) × (page.old.at + depth < 20480) }
    ensures { Puts (values word depth) page.old page.new }
{
    let w = PcSet { word };
    for t in 0..depth + 1 {
        page.put(b'0' + u8::from(w.has(t as u32)));
    }
}

// A net's line: number, before value, values at times 0 to depth, flag.
fn put_net(page: &mut Page, depth: usize, net: usize, before: u8, word: u64, flag: u8)
    requires { (depth ≤ 63) × (net < 256) × (page.old.at + 77 ≤ 20480) }
    ensures { (Puts (net_line depth net before word flag) page.old page.new) × (page.new.at ≤ page.old.at + 77) }
{
    page.put_number(net, b' ');
    page.put_number(usize::from(before), b' ');
    put_values(page, word, depth);
    page.put(b' ');
    page.put_number(usize::from(flag), b'\n');
}

// The lines of the first n nets.
fn put_nets(
    page: &mut Page,
    depth: usize,
    n: usize,
    words: &[u64; 256],
    befores: &[u8; 256],
    flags: &[u8; 256],
)
    requires { (depth ≤ 63) × (n ≤ 256) × (page.old.at + 77 * n ≤ 20480) }
    ensures { Puts
        (each (λ (i : ℕ). net_line depth i (get_or befores.now i 0) (get_or words.now i 0) (get_or flags.now i 0)) (from 0 n))
        page.old page.new }
{
    for i in 0..n {
        put_net(page, depth, i, befores[i], words[i], flags[i]);
    }
}

// The lines of a vector: its number, and the histories that it left.
pub fn put_vector(out: &mut [u8; 20480], s: &Session, depth: usize, number: usize) -> usize
    requires good { Good s.now }
    requires rested_value { (s.now.rested ≡ true) × (depth ≡ depth_of (card_of s.now)) }
    ensures { Put (vector_text number s.now) out.old 0 out.new result }
{
    let mut words = [0u64; 256];
    let mut befores = [0u8; 256];
    let mut flags = [0u8; 256];
    // The session is rested and the rooms have all nets, so it is not refused.
    let _ = history::history(s, &mut words, &mut befores, &mut flags);
    let mut page = Page::new(out);
    page.put_named(b"vector ", number, b'\n');
    put_nets(&mut page, depth, s.nets, &words, &befores, &flags);
    page.at
}
