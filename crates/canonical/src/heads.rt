// The heads of LinkInfo, of VolumeID and of the network link (FORMAT: Canonical LinkInfo).
ghost use Rattle.std.specs.Prelude.{[], cond, ◌+◌, ◌≤◌, get_or};
ghost use Rattle.copies.specs.Steps.Writes.{HasRoom, Writes};
ghost use Rattle.format.specs.Presence.{local_there, network_there};
ghost use Rattle.format.specs.Shortcut.{most};
ghost use Rattle.format.specs.Volume.{label_least};
ghost use Rattle.format.specs.Bodies.{label_slot, written_head};
ghost use Rattle.format.specs.Writing.{two_fields, label_fields};
ghost use Rattle.format.specs.Steps.Lengths.{volume_part, network_part};
ghost use Rattle.format.specs.Steps.Flat.{volume_head_bytes, network_to, network_head_bytes, info_to, info_head_bytes};

use copies::output::Output;
use format::Link;

// Two offset fields that are there or not: presence is a fact of the record.
pub fn put_fields(w: &mut Output, there: bool, x: u32, y: u32)
    requires { HasRoom w.old (cond there 8 0) }
    ensures { Writes w.old w.new (two_fields there x y) (cond there 8 0) }
{
    if there {
        w.put_u32(x);
        w.put_u32(y);
    }
}

// The label follows its offset fields.
fn put_label_fields(w: &mut Output, unicode: bool)
    requires { HasRoom w.old (cond unicode 8 4) }
    ensures { Writes w.old w.new (label_fields unicode) (cond unicode 8 4) }
{
    if unicode {
        w.put_u32(0x14);
        w.put_u32(0x14);
    } else {
        w.put_u32(0x10);
    }
}

// VolumeID's: size, drive type, serial, and where the label starts.
// Here and in the heads below the sizes are a row beside the record: a type with the fact would ask more than the clause does.
fn put_volume_fields(w: &mut Output, l: Link, sizes: [u32; 17])
    requires room { HasRoom w.old (12 + cond l.label_unicode 8 4) }
    requires few { label_least l.label_unicode + get_or sizes label_slot 0 ≤ 131072 }
    ensures { Writes w.old w.new
        (volume_head_bytes l sizes)
        (12 + cond l.label_unicode 8 4) }
{
    let size = format::label_least(l.label_unicode) + sizes[format::LABEL];
    w.put_u32(size);
    w.put_u32(l.drive);
    w.put_u32(l.serial);
    put_label_fields(w, l.label_unicode);
}

pub fn put_volume_head(w: &mut Output, l: Link, sizes: [u32; 17])
    requires room { HasRoom w.old (volume_part l) }
    requires few { label_least l.label_unicode + get_or sizes label_slot 0 ≤ 131072 }
    ensures { Writes w.old w.new
        (cond (local_there l.flags) (volume_head_bytes l sizes) [])
        (volume_part l) }
{
    if format::local_there(l.flags) {
        put_volume_fields(w, l, sizes);
    }
}

// The network link's: size, flags, offsets and provider.
fn put_network_fields(w: &mut Output, l: Link, sizes: [u32; 17])
    requires room { HasRoom w.old (20 + cond l.network_unicode 8 0) }
    requires few { network_to l sizes ≤ 131072 }
    ensures { Writes w.old w.new
        (network_head_bytes l sizes)
        (20 + cond l.network_unicode 8 0) }
{
    let named = format::device_there(l.network_flags);
    let provider = format::number_if(format::provider_there(l.network_flags), l.provider);
    let head = format::network_head(l.network_unicode);
    let device = head + sizes[format::NET];
    let net_unicode = device + sizes[format::DEVICE];
    let device_unicode = net_unicode + sizes[format::NET_UNICODE];
    let end = device_unicode + sizes[format::DEVICE_UNICODE];
    let first = format::number_if(named, device);
    let second = format::number_if(named, device_unicode);
    w.put_u32(end);
    w.put_u32(l.network_flags);
    w.put_u32(head);
    w.put_u32(first);
    w.put_u32(provider);
    put_fields(w, l.network_unicode, net_unicode, second);
}

pub fn put_network_head(w: &mut Output, l: Link, sizes: [u32; 17])
    requires room { HasRoom w.old (network_part l) }
    requires few { network_to l sizes ≤ 131072 }
    ensures { Writes w.old w.new
        (cond (network_there l.flags) (network_head_bytes l sizes) [])
        (network_part l) }
{
    if format::network_there(l.flags) {
        put_network_fields(w, l, sizes);
    }
}

// LinkInfo's: size, head size, flags and offsets, which lead past its further bytes.
pub fn put_info_head(w: &mut Output, l: Link, sizes: [u32; 17])
    requires room { HasRoom w.old (28 + cond l.long 8 0) }
    requires few { info_to l sizes ≤ most }
    ensures { Writes w.old w.new
        (info_head_bytes l sizes)
        (28 + cond l.long 8 0) }
{
    let here = format::local_there(l.flags);
    let away = format::network_there(l.flags);
    let head = sizes::info_head(l.long) + sizes[format::FURTHER];
    let local = head + (sizes::volume_part(l) + sizes[format::LABEL]);
    let network = local + sizes[format::LOCAL];
    let names = sizes::network_part(l)
        + sizes[format::NET]
        + sizes[format::DEVICE]
        + sizes[format::NET_UNICODE]
        + sizes[format::DEVICE_UNICODE];
    let suffix = network + names;
    let local_unicode = suffix + sizes[format::SUFFIX];
    let suffix_unicode = local_unicode + sizes[format::LOCAL_UNICODE];
    let end = suffix_unicode + sizes[format::SUFFIX_UNICODE];
    let volume_field = format::number_if(here, head);
    let local_field = format::number_if(here, local);
    let network_field = format::number_if(away, network);
    let unicode_field = format::number_if(here, local_unicode);
    w.put_u32(end);
    w.put_u32(head);
    w.put_u32(l.flags);
    w.put_u32(volume_field);
    w.put_u32(local_field);
    w.put_u32(network_field);
    w.put_u32(suffix);
    put_fields(w, l.long, unicode_field, suffix_unicode);
}
